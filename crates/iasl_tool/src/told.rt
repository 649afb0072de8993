//! Which messages are told on the console, and which are not even counted.
ghost use Rattle.std.specs.Prelude.{◌≡◌, not, decimal};
ghost use Rattle.std.specs.List.{filter, list_any};
ghost use Rattle.std.specs.Str.{bytes_eq};
ghost use Rattle.iasl_messages.specs.declared.severity.Severity.TheVariants.{Error};
ghost use Rattle.iasl_messages.specs.Severity.{severity_of, is_same};
ghost use Rattle.iasl_tool.specs.Told as spec;

use iasl_messages::message::{Message, Messages};
use iasl_messages::severity::{Severity, severity_of};
use iasl_options::switches::Switches;
use iasl_ports::list::{List, Text, Texts};
use itoa::Buffer;

// Whether the message of this number is an error.
fn is_error(number: u16) -> bool
    ensures { result ≡ is_same Error (severity_of number) }
{
    matches!(severity_of(number), Severity::Error)
}

// Whether one of these is this text.
fn is_among(texts: &[Text], wanted: &[u8]) -> bool
    ensures { result ≡ list_any (λ text. bytes_eq text wanted.now) texts.now }
{
    texts.iter().any(|text| text.as_bytes() == wanted)
}

// Whether one of these is the number, as it is written.
fn has_number(texts: &Texts, number: u16) -> bool
    ensures { result ≡ list_any (λ text. bytes_eq text (decimal number)) texts.now }
{
    let mut buffer = Buffer::new();
    is_among(
        texts.as_slice(),
        buffer.format(u64::from(number)).as_bytes(),
    )
}

/// Whether it is a warning or a remark whose number is one of these, as they are written (`-vw`).
pub(crate) fn is_ignored(ignored: &Texts, number: u16) -> bool
    ensures { result ≡ spec.is_ignored ignored.now number }
{
    !is_error(number) && has_number(ignored, number)
}

fn is_counted(ignored: &Texts, message: &Message) -> bool
    ensures { result ≡ not (spec.is_ignored ignored.now message.now.number) }
{
    !is_ignored(ignored, message.number)
}

// Lets those go that do not count.
fn keep_counted(list: &mut Vec<Message>, ignored: &Texts)
    ensures { list.new.items ≡ filter (λ message. not (spec.is_ignored ignored.now message.number)) list.old.items }
{
    list.retain(
        move |message: &Message| -> bool
            ensures { result ≡ not (spec.is_ignored ignored.entry.now message.now.number) }
        { is_counted(ignored, message) },
    );
}

/// The messages but for the warnings and remarks whose numbers are among these, as they are written (`-vw`).
pub(crate) fn counted(ignored: &Texts, messages: Messages) -> Messages
    ensures { result ≡ spec.counted ignored.now messages }
{
    let mut list = messages.into_vec();
    keep_counted(&mut list, ignored);
    List::from_vec(list)
}

fn is_told(switches: Switches, message: &Message) -> bool
    ensures { result ≡ spec.is_told switches (severity_of message.now.number) }
{
    match severity_of(message.number) {
        Severity::Remark => switches.remarks,
        Severity::Warning => switches.warnings,
        Severity::Error => switches.errors,
    }
}

// Lets those go that are not told.
fn keep_told(list: &mut Vec<Message>, switches: Switches)
    ensures { list.new.items ≡ filter (λ message. spec.is_told switches (severity_of message.number)) list.old.items }
{
    list.retain(
        move |message: &Message| -> bool
            ensures { result ≡ spec.is_told switches (severity_of message.now.number) }
        { is_told(switches, message) },
    );
}

/// The messages that are told: not with `-vr` the remarks, with `-ve` neither these nor the warnings, with `-va` none.
pub(crate) fn shown(switches: Switches, messages: Messages) -> Messages
    ensures { result ≡ spec.shown switches messages }
{
    let mut list = messages.into_vec();
    keep_told(&mut list, switches);
    List::from_vec(list)
}
