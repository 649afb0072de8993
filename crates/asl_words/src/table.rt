//! The operators and words of the language (ACPI Specification 6.4, 19.6).
ghost use Rattle.std.specs.Prelude.{◌≡◌, map, false, true, None};
ghost use Rattle.std.specs.Option.{option_copied};
ghost use Rattle.asl_words.specs.Begun as begun;
ghost use Rattle.asl_words.specs.Operators as spec;

use crate::operator::{Known, Named, Operator};
use crate::paths::parts;
use crate::words::WORDS;
use acpi_values::operator::{DataOp, EventOp, IntOp, Plain};
use asl_tree::term::{Control, Declaration, Literal, Op, Special};

macro_rules! row {
    ($word:expr, $op:expr) => {
        Operator {
            word: *$word,
            op: $op,
        }
    };
}

macro_rules! number {
    ($word:expr, $op:ident) => {
        row!($word, Op::Plain(Plain::Number(IntOp::$op)))
    };
}

macro_rules! data {
    ($word:expr, $op:ident) => {
        row!($word, Op::Plain(Plain::Data(DataOp::$op)))
    };
}

macro_rules! event {
    ($word:expr, $op:ident) => {
        row!($word, Op::Plain(Plain::Event(EventOp::$op)))
    };
}

macro_rules! literal {
    ($word:expr, $op:ident) => {
        row!($word, Op::Literal(Literal::$op))
    };
}

macro_rules! special {
    ($word:expr, $op:ident) => {
        row!($word, Op::Special(Special::$op))
    };
}

macro_rules! control {
    ($word:expr, $op:ident) => {
        row!($word, Op::Control(Control::$op))
    };
}

macro_rules! declaration {
    ($word:expr, $op:ident) => {
        row!($word, Op::Declaration(Declaration::$op))
    };
}

/// The operators under their words: those that begin with A, with B, and so on.
pub const OPERATORS: &[&[Operator]] = &[
    &[
        number!(b"ADD                         ", Add),
        number!(b"AND                         ", And),
        event!(b"ACQUIRE                     ", Acquire),
        declaration!(b"ALIAS                       ", Alias),
    ],
    &[
        special!(b"BUFFER                      ", Buffer),
        event!(b"BREAKPOINT                  ", BreakPoint),
        control!(b"BREAK                       ", Break),
        declaration!(b"BANKFIELD                   ", BankField),
    ],
    &[
        declaration!(b"CREATEDWORDFIELD            ", CreateDWordField),
        data!(b"COPYOBJECT                  ", CopyObject),
        data!(b"CONCATENATE                 ", Concatenate),
        data!(b"CONCATENATERESTEMPLATE      ", ConcatenateResTemplate),
        special!(b"CONDREFOF                   ", CondRefOf),
        control!(b"CASE                        ", Case),
        control!(b"CONTINUE                    ", Continue),
        declaration!(b"CREATEFIELD                 ", CreateField),
        declaration!(b"CREATEBITFIELD              ", CreateBitField),
        declaration!(b"CREATEBYTEFIELD             ", CreateByteField),
        declaration!(b"CREATEWORDFIELD             ", CreateWordField),
        declaration!(b"CREATEQWORDFIELD            ", CreateQWordField),
    ],
    &[
        declaration!(b"DEVICE                      ", Device),
        number!(b"DIVIDE                      ", Divide),
        data!(b"DECREMENT                   ", Decrement),
        data!(b"DEREFOF                     ", DerefOf),
        control!(b"DEFAULT                     ", Default),
    ],
    &[
        control!(b"ELSE                        ", Else),
        control!(b"ELSEIF                      ", ElseIf),
        declaration!(b"EXTERNAL                    ", External),
        declaration!(b"EVENT                       ", Event),
    ],
    &[
        number!(b"FINDSETLEFTBIT              ", FindSetLeftBit),
        number!(b"FINDSETRIGHTBIT             ", FindSetRightBit),
        number!(b"FROMBCD                     ", FromBcd),
        event!(b"FATAL                       ", Fatal),
        declaration!(b"FIELD                       ", Field),
        control!(b"FOR                         ", For),
        control!(b"FPRINTF                     ", Fprintf),
    ],
    &[],
    &[],
    &[
        control!(b"IF                          ", If),
        data!(b"INCREMENT                   ", Increment),
        data!(b"INDEX                       ", Index),
        declaration!(b"INDEXFIELD                  ", IndexField),
    ],
    &[],
    &[],
    &[
        number!(b"LAND                        ", LAnd),
        number!(b"LOR                         ", LOr),
        number!(b"LNOT                        ", LNot),
        number!(b"LEQUAL                      ", LEqual),
        number!(b"LGREATER                    ", LGreater),
        number!(b"LLESS                       ", LLess),
        number!(b"LNOTEQUAL                   ", LNotEqual),
        number!(b"LLESSEQUAL                  ", LLessEqual),
        number!(b"LGREATEREQUAL               ", LGreaterEqual),
    ],
    &[
        declaration!(b"METHOD                      ", Method),
        number!(b"MULTIPLY                    ", Multiply),
        number!(b"MOD                         ", Mod),
        data!(b"MID                         ", Mid),
        data!(b"MATCH                       ", Match),
        declaration!(b"MUTEX                       ", Mutex),
    ],
    &[
        declaration!(b"NAME                        ", Name),
        number!(b"NAND                        ", Nand),
        number!(b"NOR                         ", Nor),
        number!(b"NOT                         ", Not),
        event!(b"NOTIFY                      ", Notify),
        event!(b"NOOP                        ", Noop),
    ],
    &[
        number!(b"OR                          ", Or),
        data!(b"OBJECTTYPE                  ", ObjectType),
        literal!(b"ONE                         ", One),
        literal!(b"ONES                        ", Ones),
        declaration!(b"OPERATIONREGION             ", OperationRegion),
    ],
    &[
        special!(b"PACKAGE                     ", Package),
        declaration!(b"POWERRESOURCE               ", PowerResource),
        declaration!(b"PROCESSOR                   ", Processor),
        control!(b"PRINTF                      ", Printf),
    ],
    &[],
    &[
        control!(b"RETURN                      ", Return),
        data!(b"REFOF                       ", RefOf),
        event!(b"REVISION                    ", Revision),
        event!(b"RELEASE                     ", Release),
        event!(b"RESET                       ", Reset),
    ],
    &[
        data!(b"STORE                       ", Store),
        declaration!(b"SCOPE                       ", Scope),
        number!(b"SUBTRACT                    ", Subtract),
        number!(b"SHIFTLEFT                   ", ShiftLeft),
        number!(b"SHIFTRIGHT                  ", ShiftRight),
        data!(b"SIZEOF                      ", SizeOf),
        event!(b"SIGNAL                      ", Signal),
        event!(b"SLEEP                       ", Sleep),
        event!(b"STALL                       ", Stall),
        control!(b"SWITCH                      ", Switch),
    ],
    &[
        number!(b"TOBCD                       ", ToBcd),
        data!(b"TOBUFFER                    ", ToBuffer),
        data!(b"TODECIMALSTRING             ", ToDecimalString),
        data!(b"TOHEXSTRING                 ", ToHexString),
        data!(b"TOINTEGER                   ", ToInteger),
        data!(b"TOSTRING                    ", ToString),
        event!(b"TIMER                       ", Timer),
        declaration!(b"THERMALZONE                 ", ThermalZone),
    ],
    &[],
    &[],
    &[
        event!(b"WAIT                        ", Wait),
        control!(b"WHILE                       ", While),
    ],
    &[number!(b"XOR                         ", Xor)],
    &[],
    &[literal!(b"ZERO                        ", Zero)],
];

// Whether nothing stands here, or a blank first.
fn is_blank_first(bytes: &[u8]) -> bool
    ensures { result ≡ begun.is_blank_first bytes.now }
{
    match parts(bytes) {
        Some((first, _)) => *first == b' ',
        None => true,
    }
}

// Whether the last byte of a word stands at its place there. In most other rows of the same letter it does not.
#[inline(always)]
#[tactic(auto, using(crate::proofs::Tables::last_rules))]
fn ends_alike(bytes: &[u8], word: &[u8]) -> bool
    ensures { result ≡ false → begun.is_begun bytes.now word.now ≡ false }
{
    match word.split_last() {
        Some((last, front)) => match bytes.get(front.len()) {
            Some(byte) => *byte == *last,
            None => false,
        },
        None => true,
    }
}

// Whether these bytes begin with the word, and a blank or nothing stands behind it.
fn is_word(bytes: &[u8], word: &[u8]) -> bool
    ensures { result ≡ begun.is_begun bytes.now word.now }
{
    match bytes.strip_prefix(word) {
        Some(rest) => is_blank_first(rest),
        None => false,
    }
}

// Whether these bytes, of a row, are the word with blanks behind it. It stands in the loops over the rows, which ask most
// rows for one byte alone.
#[inline(always)]
fn is_begun(bytes: &[u8], word: &[u8]) -> bool
    ensures { result ≡ begun.is_begun bytes.now word.now }
{
    ends_alike(bytes, word) && is_word(bytes, word)
}

// How many letters of the alphabet stand before the one that a word begins with.
fn place_of(word: &[u8]) -> Option<usize>
    ensures { result ≡ spec.place_of word.now }
{
    let (first, _) = parts(word)?;
    if b'A' <= *first {
        Some((*first - b'A') as usize)
    } else {
        None
    }
}

// The rows of the operators, letter by letter.
fn operator_letters() -> &'static [&'static [Operator]]
    ensures { map (λ rows. rows.now) result.now ≡ map (λ rows. rows.now) OPERATORS.now }
{
    OPERATORS
}

// The rows of the other words, letter by letter.
fn word_letters() -> &'static [&'static [Named]]
    ensures { map (λ rows. rows.now) result.now ≡ map (λ rows. rows.now) WORDS.now }
{
    WORDS
}

// Whether a word ends in a digit, as those of Locals and of arguments do. No operator's word does.
#[tactic(auto, using(crate::proofs::Tables::numbered_nowhere))]
fn is_numbered(word: &[u8]) -> bool
    ensures { result ≡ true → spec.row_in spec.operators word.now ≡ None }
{
    match word.split_last() {
        Some((last, _front)) => b'0' <= *last && *last <= b'9',
        None => false,
    }
}

// The rows of a word's letter: what is not among them is no operator.
#[tactic(auto, using(crate::proofs::Tables::operator_nowhere))]
fn operators_by(word: &[u8]) -> &'static [Operator]
    ensures { begun.row_begun result.now word.now ≡ spec.row_in spec.operators word.now }
{
    if is_numbered(word) {
        return &[];
    }
    let Some(place) = place_of(word) else {
        return &[];
    };
    match operator_letters().get(place) {
        Some(rows) => *rows,
        None => &[],
    }
}

// The rows of a word's letter: what is not among them stands for nothing.
#[tactic(auto, using(crate::proofs::Tables::word_nowhere))]
fn words_by(text: &[u8]) -> &'static [Named]
    ensures { begun.named_begun result.now text.now ≡ spec.named_in spec.words text.now }
{
    let Some(place) = place_of(text) else {
        return &[];
    };
    match word_letters().get(place) {
        Some(rows) => *rows,
        None => &[],
    }
}

#[tactic(auto, unfolding(crate::specs::Begun::row_begun))]
fn row_in(rows: &'static [Operator], word: &[u8]) -> Option<&'static Operator>
    ensures { option_copied result ≡ begun.row_begun rows.now word.now }
{
    rows.iter().find(|row| is_begun(&row.word, word))
}

#[tactic(auto, unfolding(crate::specs::Begun::named_begun))]
fn named_in(rows: &'static [Named], text: &[u8]) -> Option<&'static Named>
    ensures { option_copied result ≡ begun.named_begun rows.now text.now }
{
    rows.iter().find(|row| is_begun(&row.text, text))
}

/// The operator of this word.
#[tactic(auto, unfolding(crate::specs::Operators::operator_of))]
pub fn operator_of(word: &[u8]) -> Option<Op>
    ensures { result ≡ spec.operator_of word.now }
{
    match row_in(operators_by(word), word) {
        Some(row) => Some(row.op),
        None => None,
    }
}

/// What this word stands for.
#[tactic(auto, unfolding(crate::specs::Operators::word_of))]
pub fn word_of(text: &[u8]) -> Option<Known>
    ensures { result ≡ spec.word_of text.now }
{
    match named_in(words_by(text), text) {
        Some(row) => Some(row.known),
        None => None,
    }
}
