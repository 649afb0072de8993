//! How grave a message is.
ghost use Rattle.std.specs.Prelude.{◌≡◌};
ghost use Rattle.iasl_messages.specs.Severity as spec;

use crate::message::Messages;

/// How grave a message is.
#[derive(Clone, Copy, Debug, PartialEq, Eq)]
pub enum Severity {
    /// A note that asks for nothing.
    Remark,
    /// What is likely a mistake; the table is written all the same.
    Warning,
    /// What keeps the table from being written.
    Error,
}

/// The severity of the message of a number: a remark in the 2000s, a warning in the 3000s, else an error.
pub fn severity_of(number: u16) -> Severity
    ensures { result ≡ spec.severity_of number }
{
    match number / 1000 {
        2 => Severity::Remark,
        3 => Severity::Warning,
        _ => Severity::Error,
    }
}

/// The word that stands for a severity in the console's text.
pub fn word_of(severity: Severity) -> &'static str
    ensures { result.now ≡ spec.word_of severity }
{
    match severity {
        Severity::Remark => "remark",
        Severity::Warning => "warning",
        Severity::Error => "error",
    }
}

fn is_same(first: Severity, second: Severity) -> bool
    ensures { result ≡ spec.is_same first second }
{
    first == second
}

/// How many of the messages are of a severity.
pub fn count_of(messages: &Messages, severity: Severity) -> usize
    ensures { result ≡ spec.count_of severity messages.now }
{
    messages
        .as_slice()
        .iter()
        .filter(|m| is_same(severity, severity_of(m.number)))
        .count()
}
