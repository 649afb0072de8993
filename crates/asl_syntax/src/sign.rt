//! Symbols, and how operators bind.
ghost use Rattle.std.specs.Prelude.{◌≡◌, ◌∷◌, []};
ghost use Rattle.asl_syntax.specs.Signs as spec;

use crate::raw::Infix;

/// A symbol.
#[derive(Clone, Copy)]
pub enum Sign {
    LeftParen,
    RightParen,
    LeftBrace,
    RightBrace,
    LeftBracket,
    RightBracket,
    Comma,
    Semicolon,
    /// An operator behind its operand.
    Postfix(Infix),
    /// An operator before its operand.
    Prefix(Infix),
    /// An operator between its operands.
    Binary(Infix),
}

/// How an operator between two operands binds.
#[derive(Clone, Copy)]
pub struct Strength {
    /// Operators before it up to this level are applied first.
    pub pull: u8,
    pub level: u8,
    /// The highest level of its right operand.
    pub room: u8,
}

#[tactic(auto, unfolding(crate::specs::Signs::strength))]
pub fn strength_of(op: Infix) -> Option<Strength>
    ensures { result ≡ spec.strength op }
{
    let level = match op {
        Infix::Multiply | Infix::Divide | Infix::Modulo => 3,
        Infix::Add | Infix::Subtract => 4,
        Infix::ShiftLeft | Infix::ShiftRight => 5,
        Infix::Less | Infix::Greater | Infix::LessEqual | Infix::GreaterEqual => 6,
        Infix::Equal | Infix::NotEqual => 7,
        Infix::And => 8,
        Infix::Xor => 9,
        Infix::Or => 10,
        Infix::LogicalAnd => 11,
        Infix::LogicalOr => 12,
        Infix::Index | Infix::Increment | Infix::Decrement | Infix::LogicalNot | Infix::Not =>
            return None,
        _ => {
            return Some(Strength {
                pull: 12,
                level: 13,
                room: 13,
            });
        }
    };
    Some(Strength {
        pull: level,
        level,
        room: level - 1,
    })
}

#[tactic(auto, unfolding(crate::specs::Signs::sign_of))]
fn one(first: u8) -> Option<Sign>
    ensures { result ≡ spec.sign_of (first ∷ []) }
{
    Some(match first {
        b'(' => Sign::LeftParen,
        b')' => Sign::RightParen,
        b'{' => Sign::LeftBrace,
        b'}' => Sign::RightBrace,
        b'[' => Sign::LeftBracket,
        b']' => Sign::RightBracket,
        b',' => Sign::Comma,
        b';' => Sign::Semicolon,
        b'!' => Sign::Prefix(Infix::LogicalNot),
        b'~' => Sign::Prefix(Infix::Not),
        b'*' => Sign::Binary(Infix::Multiply),
        b'/' => Sign::Binary(Infix::Divide),
        b'%' => Sign::Binary(Infix::Modulo),
        b'+' => Sign::Binary(Infix::Add),
        b'-' => Sign::Binary(Infix::Subtract),
        b'<' => Sign::Binary(Infix::Less),
        b'>' => Sign::Binary(Infix::Greater),
        b'&' => Sign::Binary(Infix::And),
        b'^' => Sign::Binary(Infix::Xor),
        b'|' => Sign::Binary(Infix::Or),
        b'=' => Sign::Binary(Infix::Assign),
        _ => return None,
    })
}

#[tactic(auto, unfolding(crate::specs::Signs::sign_of))]
fn with_equals(first: u8) -> Option<Sign>
    ensures { result ≡ spec.sign_of (first ∷ 61 ∷ []) }
{
    Some(Sign::Binary(match first {
        b'<' => Infix::LessEqual,
        b'>' => Infix::GreaterEqual,
        b'=' => Infix::Equal,
        b'!' => Infix::NotEqual,
        b'+' => Infix::AddAssign,
        b'-' => Infix::SubtractAssign,
        b'*' => Infix::MultiplyAssign,
        b'/' => Infix::DivideAssign,
        b'%' => Infix::ModuloAssign,
        b'&' => Infix::AndAssign,
        b'|' => Infix::OrAssign,
        b'^' => Infix::XorAssign,
        _ => return None,
    }))
}

#[tactic(auto, unfolding(crate::specs::Signs::sign_of))]
fn two(first: u8, second: u8) -> Option<Sign>
    ensures { result ≡ spec.sign_of (first ∷ second ∷ []) }
{
    if second == b'=' {
        return with_equals(first);
    }
    if first != second {
        return None;
    }
    Some(match first {
        b'+' => Sign::Postfix(Infix::Increment),
        b'-' => Sign::Postfix(Infix::Decrement),
        b'<' => Sign::Binary(Infix::ShiftLeft),
        b'>' => Sign::Binary(Infix::ShiftRight),
        b'&' => Sign::Binary(Infix::LogicalAnd),
        b'|' => Sign::Binary(Infix::LogicalOr),
        _ => return None,
    })
}

#[tactic(auto, unfolding(crate::specs::Signs::sign_of))]
fn three(first: u8, second: u8, third: u8) -> Option<Sign>
    ensures { result ≡ spec.sign_of (first ∷ second ∷ third ∷ []) }
{
    if third != b'=' || first != second {
        return None;
    }
    Some(Sign::Binary(match first {
        b'<' => Infix::ShiftLeftAssign,
        b'>' => Infix::ShiftRightAssign,
        _ => return None,
    }))
}

/// The symbol that is spelled so.
#[tactic(auto, using(crate::proofs::Symbols::none_empty, crate::proofs::Symbols::none_long))]
pub fn sign_of(text: &[u8]) -> Option<Sign>
    ensures { result ≡ spec.sign_of text.now }
{
    match text {
        [first] => one(*first),
        [first, second] => two(*first, *second),
        [first, second, third] => three(*first, *second, *third),
        _ => None,
    }
}
