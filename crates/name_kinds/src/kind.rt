//! What stands at a path.
ghost use Rattle.std.specs.Prelude.{◌≡◌, [], ◌∷◌, Some};
ghost use Rattle.std.specs.Option.{option_map};
ghost use Rattle.acpi_values.specs.Paths.{AbsolutePath};
ghost use Rattle.acpi_state.specs.Objects.{root_objects, lookup, operand_count as count_of, is_method as method_is};
ghost use Rattle.asl_meaning.specs.Declarations.{external_object, arity_from as arity_is};
ghost use Rattle.acpi_names.specs.Errors.{is_container as container_is, is_mutex as mutex_is, is_event as event_is, is_region as region_is};
ghost use Rattle.acpi_names.specs.Errors.{is_unit as unit_is};
ghost use Rattle.name_kinds.specs.Kinds.{object_as, outside_as, type_as, space_of};
ghost use Rattle.name_kinds.specs.declared.kind.Object.TheVariants as O;

use acpi_names::part::What;
use asl_tree::path::NameSeg;

/// An object of another table, where it is a method with its number of arguments, and else with the number of its
/// type.
#[derive(Clone, Copy, PartialEq, Eq, Debug)]
pub enum Outside {
    Method(u64),
    Data(u64),
    Other(u64),
}

/// An object: a declared one, the root or one of its containers, the global lock, or one of another table.
#[derive(Clone, Copy, PartialEq, Eq, Debug)]
pub enum Object {
    Declared(What),
    Container,
    Lock,
    Outside(Outside),
}

/// What a declared path is: an object, or an alias of the path with a number, where its source denotes one.
#[derive(Clone, Copy, PartialEq, Eq, Debug)]
pub enum NameKind {
    Is(Object),
    AliasTo(Option<usize>),
}

/// Where a path ends, behind all aliases: the number of that path, and the object there.
#[derive(Clone, Copy, PartialEq, Eq, Debug)]
pub struct End {
    pub path: usize,
    pub object: Object,
}

/// What an External says: the number of its object type, and that of its parameters (ACPI Specification 6.4,
/// 19.6).
#[derive(Clone, Copy, PartialEq, Eq, Debug)]
pub struct External {
    pub object: u64,
    pub parameters: Option<u64>,
}

/// The object of the root with a name (ACPI Specification 6.4, 5.3.1 and 5.7).
pub fn root_object(segment: NameSeg) -> Option<Object>
    ensures { option_map object_as result ≡ lookup root_objects (segment ∷ []) }
{
    match &segment {
        b"_GPE" | b"_PR_" | b"_SB_" | b"_SI_" | b"_TZ_" => Some(Object::Container),
        b"_GL_" => Some(Object::Lock),
        b"_OSI" => Some(Object::Outside(Outside::Method(1))),
        b"_OS_" => Some(Object::Outside(Outside::Data(2))),
        b"_REV" => Some(Object::Outside(Outside::Data(1))),
        _ => None,
    }
}

/// How many arguments a name takes that leads here.
pub fn operand_count(object: Object) -> u64
    ensures { result ≡ count_of (object_as object) }
{
    match object {
        Object::Declared(What::Method(flags)) => flags % 8,
        Object::Outside(Outside::Method(count)) => count,
        _ => 0,
    }
}

/// Whether an object is called.
pub fn is_method(object: Object) -> bool
    ensures { result ≡ method_is (object_as object) }
{
    match object {
        Object::Declared(What::Method(_)) => true,
        Object::Outside(Outside::Method(_)) => true,
        _ => false,
    }
}

/// Whether a Scope may open an object (ACPI Specification 6.4, 19.6).
pub fn is_container(object: Object) -> bool
    ensures { (path : AbsolutePath) → result ≡ container_is (Some (path, object_as object)) }
{
    match object {
        Object::Declared(what) => is_container_kind(what),
        Object::Container => true,
        Object::Lock => false,
        Object::Outside(Outside::Method(_)) => false,
        Object::Outside(Outside::Data(number)) => number == 0,
        Object::Outside(Outside::Other(number)) => {
            number == 6 || number == 11 || number == 12 || number == 13
        }
    }
}

fn is_container_kind(what: What) -> bool
    ensures { (path : AbsolutePath) → result ≡ container_is (Some (path, object_as (O.Declared what))) }
{
    match what {
        What::Device => true,
        What::ThermalZone => true,
        What::PowerResource(_, _) => true,
        What::Processor(_, _, _) => true,
        What::Data => false,
        What::Method(_) => false,
        What::Mutex(_) => false,
        What::Event => false,
        What::Region(_) => false,
        What::Unit => false,
        What::BufferField => false,
    }
}

/// Whether an object is a mutex (ACPI Specification 6.4, 19.6.88).
pub fn is_mutex(object: Object) -> bool
    ensures { (path : AbsolutePath) → result ≡ mutex_is (Some (path, object_as object)) }
{
    match object {
        Object::Declared(What::Mutex(_)) => true,
        Object::Lock => true,
        Object::Outside(Outside::Other(number)) => number == 9,
        _ => false,
    }
}

/// Whether an object is an event (ACPI Specification 6.4, 19.6.43).
pub fn is_event(object: Object) -> bool
    ensures { (path : AbsolutePath) → result ≡ event_is (Some (path, object_as object)) }
{
    match object {
        Object::Declared(What::Event) => true,
        Object::Outside(Outside::Other(number)) => number == 7,
        _ => false,
    }
}

/// Whether an object is a region (ACPI Specification 6.4, 19.6.100).
pub fn is_region(object: Object) -> bool
    ensures { (path : AbsolutePath) → result ≡ region_is (Some (path, object_as object)) }
{
    match object {
        Object::Declared(What::Region(_)) => true,
        Object::Outside(Outside::Other(number)) => number == 10,
        _ => false,
    }
}

/// Whether an object is a unit of a field (ACPI Specification 6.4, 19.6.48).
pub fn is_unit(object: Object) -> bool
    ensures { (path : AbsolutePath) → result ≡ unit_is (Some (path, object_as object)) }
{
    match object {
        Object::Declared(What::Unit) => true,
        Object::Outside(Outside::Data(number)) => number == 5,
        _ => false,
    }
}

/// The address space of a region of this source (ACPI Specification 6.4, 19.6.100).
pub fn space_in(object: Object) -> Option<u64>
    ensures { (path : AbsolutePath) → result ≡ space_of (Some (path, object_as object)) }
{
    match object {
        Object::Declared(What::Region(space)) => Some(space),
        _ => None,
    }
}

// The parameters of an External, as it says or as it is called first.
fn arity_from(parameters: Option<u64>, first: Option<usize>) -> u64
    ensures { result ≡ arity_is parameters first }
{
    match parameters {
        Some(count) => count,
        None => match first {
            Some(count) => count as u64,
            None => 0,
        },
    }
}

/// What an External declares, where its path is called first with so many arguments.
pub fn external_outside(external: External, first: Option<usize>) -> Outside
    ensures { outside_as result ≡ external_object (type_as external) first }
{
    let number = external.object;
    if number == 8 {
        return Outside::Method(arity_from(external.parameters, first));
    }
    if number == 0 {
        return match first {
            Some(_) => Outside::Method(arity_from(external.parameters, first)),
            None => Outside::Data(0),
        };
    }
    if number <= 5 || number == 14 {
        return Outside::Data(number);
    }
    Outside::Other(number)
}
