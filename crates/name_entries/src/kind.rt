//! The kinds of objects.
ghost use Rattle.std.specs.Prelude.{◌≡◌};
ghost use Rattle.name_kinds.specs.Kinds.{object_as};
ghost use Rattle.name_entries.specs.Entries.{type_kind, object_kind};
ghost use Rattle.name_kinds.specs.declared.kind.Object.TheVariants as O;

use acpi_names::part::What;
use name_kinds::kind::{Object, Outside};

/// What stands at a path, by the object types of External and ObjectType (ACPI Specification 6.4, 19.6).
#[derive(Clone, Copy, PartialEq, Eq, Debug)]
pub enum ObjectType {
    /// An object of another table, of which no type is said.
    Unknown,
    Integer,
    String,
    Buffer,
    Package,
    FieldUnit,
    Device,
    Event,
    Method,
    Mutex,
    Region,
    PowerResource,
    Processor,
    ThermalZone,
    BufferField,
    /// Data of any kind: what a Name declares, since a store may change its kind, and an alias that leads nowhere.
    Data,
    /// The root, or one of its containers.
    Container,
    /// A resource descriptor with a name (ACPI Specification 6.4, 19.2.8).
    Descriptor,
}

// The kind with the number of an object type.
fn numbered(number: u64) -> ObjectType
    ensures { result ≡ type_kind number }
{
    match number {
        1 => ObjectType::Integer,
        2 => ObjectType::String,
        3 => ObjectType::Buffer,
        4 => ObjectType::Package,
        5 => ObjectType::FieldUnit,
        6 => ObjectType::Device,
        7 => ObjectType::Event,
        8 => ObjectType::Method,
        9 => ObjectType::Mutex,
        10 => ObjectType::Region,
        11 => ObjectType::PowerResource,
        12 => ObjectType::Processor,
        13 => ObjectType::ThermalZone,
        14 => ObjectType::BufferField,
        _ => ObjectType::Unknown,
    }
}

// The kind of what is declared.
fn declared(what: What) -> ObjectType
    ensures { result ≡ object_kind (object_as (O.Declared what)) }
{
    match what {
        What::Data => ObjectType::Data,
        What::Method(_) => ObjectType::Method,
        What::Mutex(_) => ObjectType::Mutex,
        What::Event => ObjectType::Event,
        What::Device => ObjectType::Device,
        What::ThermalZone => ObjectType::ThermalZone,
        What::PowerResource(_, _) => ObjectType::PowerResource,
        What::Processor(_, _, _) => ObjectType::Processor,
        What::Region(_) => ObjectType::Region,
        What::Unit => ObjectType::FieldUnit,
        What::BufferField => ObjectType::BufferField,
    }
}

/// The kind of an object, as it is declared or as an External says it. The name of a descriptor is data as an object.
pub fn kind_of(object: Object) -> ObjectType
    ensures { result ≡ object_kind (object_as object) }
{
    match object {
        Object::Declared(what) => declared(what),
        Object::Container => ObjectType::Container,
        Object::Lock => ObjectType::Mutex,
        Object::Outside(Outside::Method(_)) => ObjectType::Method,
        Object::Outside(Outside::Data(number)) => numbered(number),
        Object::Outside(Outside::Other(number)) => numbered(number),
    }
}
