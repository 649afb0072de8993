//! Faults, and what the last bytes are a part of.
ghost use Rattle.asl_lexer.specs.declared.mode.LexerStop.TheVariants.{Memory};
ghost use Rattle.std.specs.Prelude.{◌≡◌};

use crate::class::Radix;
use iasl_messages::place::Place;
use iasl_ports::list::List;
use std::alloc::AllocError;

/// Why bytes are no tokens: the number of the message, and the place.
#[derive(Clone, Copy, Debug)]
pub struct Fault {
    pub number: u16,
    pub place: Place,
}

/// Why there are no tokens.
#[derive(Clone, Copy, Debug)]
pub enum LexerStop {
    Memory,
    Fault(Fault),
}

impl From<AllocError> for LexerStop {
    ghost from_gives = { λ _ e. e ≡ Memory };

    fn from(_e: AllocError) -> LexerStop {
        LexerStop::Memory
    }
}

/// What the last bytes are a part of.
#[derive(Drop)]
pub enum Mode {
    Between,
    /// A word, or a path where a prefix or a dot stood before.
    Name {
        from: Place,
        path: bool,
        text: List<u8>,
    },
    /// A word or path and a dot behind it.
    Dot {
        from: Place,
        path: bool,
        text: List<u8>,
        dot: Place,
    },
    /// A backslash.
    Root {
        from: Place,
    },
    /// Carets: the places of all but the last, and the last's.
    Carets {
        before: List<Place>,
        last: Place,
    },
    /// A zero at the beginning of a number.
    Zero {
        from: Place,
    },
    /// A zero and an `x`.
    Prefix {
        from: Place,
        x: Place,
    },
    /// A number so far, and the column behind it.
    Number {
        from: Place,
        radix: Radix,
        value: u64,
        end: u32,
    },
    /// A string so far.
    Text {
        from: Place,
        text: List<u8>,
    },
    /// A string and a backslash.
    Escape {
        from: Place,
        text: List<u8>,
        slash: Place,
    },
    /// A string and `\x`.
    Coded {
        from: Place,
        text: List<u8>,
        slash: Place,
    },
    /// A string and an escape of digits so far: their value, or 255 where it is more, and how many digits
    /// may follow.
    Digits {
        from: Place,
        text: List<u8>,
        slash: Place,
        radix: Radix,
        value: u8,
        left: u8,
    },
    /// A string in which a byte or an escape was bad.
    Broken {
        from: Place,
        fault: Fault,
    },
    /// Such a string and a backslash.
    BrokenEscape {
        from: Place,
        fault: Fault,
    },
    Slash {
        from: Place,
    },
    /// A comment to the line's end.
    Line,
    Block {
        from: Place,
    },
    /// A block comment whose last byte is a star.
    Star {
        from: Place,
    },
    /// A character that begins a symbol.
    Sign {
        from: Place,
        first: u8,
    },
    /// `<<` or `>>`.
    Shift {
        from: Place,
        first: u8,
    },
}
