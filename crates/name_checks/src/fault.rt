//! Errors of names, and their messages.
ghost use Rattle.std.specs.Prelude.{◌≡◌, ◌<◌, ◌++◌, ◌∷◌, [], length, get_or, reverse, map, IfOk, OnOk};
ghost use Rattle.name_checks.specs.Messages.{message as message_is, message_of, dotted, segments_text, name_text, path_text, prefix_text};
ghost use Rattle.acpi_names.specs.Shown.{written_as};
ghost use Rattle.name_checks.specs.Faults.{fault_as};

use acpi_names::lookup::scope_in;
use acpi_names::mention::{Occurrence, WrittenName};
use acpi_names::paths::Paths;
use asl_tree::path::{NameSeg, Path};
use iasl_messages::message::Message;
use iasl_messages::number;
use iasl_messages::place::Place;
use iasl_ports::list::Text;
use std::alloc::{AllocError, Global};

/// An error at a node, with the number of the path that is declared or the name as it is written.
#[derive(Clone, Copy)]
pub enum Fault<'a> {
    /// The path is declared before, or of the root.
    Twice {
        at: Occurrence,
        path: usize,
    },
    /// The path of an External is declared by the block.
    DeclaredHere {
        at: Occurrence,
        path: usize,
    },
    /// The name denotes nothing, or its scope is not there.
    Missing {
        at: Occurrence,
        name: WrittenName<'a>,
    },
    /// A Scope of something that has no scope.
    NoContainer {
        at: Occurrence,
        name: WrittenName<'a>,
    },
    /// More steps up than scopes.
    LeavesRoot {
        at: Occurrence,
        name: WrittenName<'a>,
    },
    /// Not as the External before or as the first call.
    Differs {
        at: Occurrence,
        name: WrittenName<'a>,
    },
    /// A path of more than 255 segments.
    TooLong {
        at: Occurrence,
        name: WrittenName<'a>,
    },
    /// A use or a call with another number of arguments.
    WrongCount {
        at: Occurrence,
        name: WrittenName<'a>,
    },
    /// An object that is not of the kind that is asked for.
    WrongKind {
        at: Occurrence,
        name: WrittenName<'a>,
    },
}

// Segments, each behind a dot.
fn put_dotted(text: &mut Vec<u8>, segs: &[NameSeg]) -> Result<(), AllocError>
    ensures { OnOk result (text.new.items ≡ text.old.items ++ dotted segs.now) }
{
    for seg in segs {
        text.push(b'.')?;
        text.extend_from_slice(seg)?;
    }
    Ok(())
}

// Segments with dots between.
fn put_segments(text: &mut Vec<u8>, segs: &[NameSeg]) -> Result<(), AllocError>
    ensures { OnOk result (text.new.items ≡ text.old.items ++ segments_text segs.now) }
{
    match segs {
        [] => Ok(()),
        [first, rest @ ..] => {
            text.extend_from_slice(first)?;
            put_dotted(text, rest)?;
            Ok(())
        }
    }
}

fn put_prefix(text: &mut Vec<u8>, root: bool, up: u32) -> Result<(), AllocError>
    ensures { OnOk result (text.new.items ≡ text.old.items ++ prefix_text root up) }
{
    if root {
        text.push(b'\\')?;
        return Ok(());
    }
    for step in 0..up {
        text.push(b'^')?;
    }
    Ok(())
}

/// The text of a path as it is written (ACPI Specification 6.4, 19.2.2).
pub fn text_of_name(alloc: Global, name: &Path) -> Result<Text, AllocError>
    ensures { IfOk result (λ text. text ≡ name_text name.now) }
{
    let mut text = Vec::new(alloc);
    put_prefix(&mut text, name.root, name.up)?;
    put_segments(&mut text, name.segs.as_slice())?;
    Text::from_vec(alloc, text)
}

// The text of a name as it is written.
fn written_text(alloc: Global, name: WrittenName) -> Result<Text, AllocError>
    ensures { IfOk result (λ text. text ≡ name_text (written_as name.entry)) }
{
    match name {
        WrittenName::Path(path) => Ok(text_of_name(alloc, path)?),
        WrittenName::Segment(segment) => {
            let mut text = Vec::new(alloc);
            text.extend_from_slice(&segment)?;
            Text::from_vec(alloc, text)
        }
    }
}

// The segments of a path, the last first.
fn segments(alloc: Global, paths: &Paths, number: usize) -> Result<Vec<NameSeg>, AllocError>
    requires { number < length paths.now }
    ensures { IfOk result (λ segs. segs.items ≡ get_or paths.now number []) }
{
    let mut segs = Vec::new(alloc);
    let mut at = number;
    while let Some(below) = paths.step(at) {
        segs.push(below.1)?;
        at = below.0;
    }
    Ok(segs)
}

/// The text of a path from the root.
pub fn text_of_path(alloc: Global, paths: &Paths, number: usize) -> Result<Text, AllocError>
    ensures { IfOk result (λ text. text ≡ path_text (get_or paths.now number [])) }
{
    let mut segs = segments(alloc, paths, scope_in(paths, number))?;
    segs.reverse();
    let mut text = Vec::new(alloc);
    text.push(b'\\')?;
    put_segments(&mut text, segs.as_slice())?;
    Text::from_vec(alloc, text)
}

// A message with a name.
fn named(
    alloc: Global,
    number: u16,
    at: Occurrence,
    name: WrittenName,
) -> Result<Message, AllocError>
    ensures { IfOk result (λ m. m ≡ message_is number at.place (name_text (written_as name.entry))) }
{
    let text = written_text(alloc, name)?;
    Ok(Message {
        number,
        place: at.place,
        name: text,
    })
}

// A message with a path.
fn pathed(
    alloc: Global,
    paths: &Paths,
    number: u16,
    at: Occurrence,
    path: usize,
) -> Result<Message, AllocError>
    ensures { IfOk result (λ m. m ≡ message_is number at.place (path_text (get_or paths.now path []))) }
{
    let text = text_of_path(alloc, paths, path)?;
    Ok(Message {
        number,
        place: at.place,
        name: text,
    })
}

/// The message of an error.
pub fn message(alloc: Global, paths: &Paths, fault: Fault) -> Result<Message, AllocError>
    ensures { IfOk result (λ m. m ≡ message_of (fault_as paths.now fault.entry)) }
{
    match fault {
        Fault::Twice { at, path } => Ok(pathed(
            alloc,
            paths,
            number::NAME_DECLARED_TWICE,
            at,
            path,
        )?),
        Fault::DeclaredHere { at, path } => Ok(pathed(
            alloc,
            paths,
            number::EXTERNAL_DECLARED_HERE,
            at,
            path,
        )?),
        Fault::Missing { at, name } => Ok(named(alloc, number::NAME_NOT_FOUND, at, name)?),
        Fault::NoContainer { at, name } => Ok(named(
            alloc,
            number::SCOPE_IS_NO_CONTAINER,
            at,
            name,
        )?),
        Fault::LeavesRoot { at, name } => Ok(named(alloc, number::PATH_LEAVES_ROOT, at, name)?),
        Fault::Differs { at, name } => Ok(named(
            alloc,
            number::EXTERNAL_ARGUMENTS_DIFFER,
            at,
            name,
        )?),
        Fault::TooLong { at, name } => Ok(named(alloc, number::PATH_IS_TOO_LONG, at, name)?),
        Fault::WrongCount { at, name } => Ok(named(
            alloc,
            number::WRONG_CALL_ARGUMENT_COUNT,
            at,
            name,
        )?),
        Fault::WrongKind { at, name } => Ok(named(alloc, number::WRONG_OBJECT_KIND, at, name)?),
    }
}

/// The messages of errors, in order.
pub fn messages(alloc: Global, paths: &Paths, faults: &[Fault]) -> Result<Vec<Message>, AllocError>
    ensures { IfOk result (λ ms. ms.items ≡ map (λ f. message_of (fault_as paths.now f)) faults.now) }
{
    let mut out = Vec::new(alloc);
    for fault in faults {
        out.push(message(alloc, paths, *fault)?)?;
    }
    Ok(out)
}
