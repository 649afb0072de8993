// Decoded lines, which tell the flags of the field above them.
ghost use Rattle.std.specs.Prelude.{◌≡◌, MatchOption, Some, None};
ghost use Rattle.std.specs.Option.{option_copied, is_some};
ghost use Rattle.data_layout.specs.Layout.{flags_of, flag_value};
ghost use Rattle.data_text.specs.Values.{number_in};
ghost use Rattle.data_tables.specs.Decoding.{find_flag, flag_of, is_decoded_below, agrees, told_by_flag, told_by_field, decoded_of};

use crate::label::is_label;
use data_layout::row::{Flag, FlagSet, Row};
use data_layout::table::{flag_value, flags_of};
use data_text::field_line::FieldLine;
use data_text::values::{Number, number_in};

/// A field that decoded lines may follow: its flags, its value, and whether its line has a part in brackets.
#[derive(Clone, Copy)]
pub(crate) struct Decoded {
    pub flags: FlagSet,
    pub number: u64,
    pub bracketed: bool,
}

/// What a decoded line tells.
#[derive(Clone, Copy, PartialEq, Eq)]
pub(crate) enum Told {
    /// What the field says, too.
    Nothing,
    /// An unknown label.
    Unknown,
    /// Something else than the field.
    Disagrees,
}

fn find_flag(key: &[u8], flags: &[Flag]) -> Option<Flag>
    ensures { result ≡ find_flag key.now flags.now }
{
    for flag in flags {
        if is_label(key, &flag.label) {
            return Some(*flag);
        }
    }
    None
}

fn flag_of(field: &Decoded, line: &FieldLine) -> Option<Flag>
    ensures { result ≡ flag_of field.now line.now }
{
    find_flag(line.label.as_slice(), flags_of(field.flags))
}

/// Whether a line is a decoded one below this field.
pub(crate) fn is_decoded_below(field: &Decoded, line: &FieldLine) -> bool
    ensures { result ≡ is_decoded_below field.now line.now }
{
    line.colon && (flag_of(field, line).is_some() || (field.bracketed && !line.bracketed))
}

#[tactic(auto, using(crate::proofs::Rooms::not_that))]
fn told_value(value: &[u8], bits: u64) -> Told
    ensures { result ≡ agrees (number_in value.now) bits }
{
    match number_in(value) {
        Number::Is(number) => {
            if number == bits {
                Told::Nothing
            } else {
                Told::Disagrees
            }
        }
        Number::Malformed | Number::Wide => Told::Disagrees,
    }
}

fn told_by_flag(number: u64, line: &FieldLine, flag: Option<Flag>) -> Told
    ensures { result ≡ told_by_flag number line.now flag }
{
    match flag {
        Some(flag) => told_value(line.value.as_slice(), flag_value(number, flag)),
        None => Told::Unknown,
    }
}

/// What a decoded line below this field tells.
pub(crate) fn told_by_field(field: &Decoded, line: &FieldLine) -> Told
    ensures { result ≡ told_by_field field.now line.now }
{
    told_by_flag(field.number, line, flag_of(field, line))
}

/// The field, where decoded lines may follow its line.
pub(crate) fn decoded_of(row: &Row, number: u64, line: &FieldLine) -> Option<Decoded>
    ensures { result ≡ decoded_of row.now number line.now }
{
    let marked = line.label.as_slice().ends_with(b"(decodedbelow)");
    if marked || !flags_of(row.flags).is_empty() {
        Some(Decoded {
            flags: row.flags,
            number,
            bracketed: line.bracketed,
        })
    } else {
        None
    }
}
