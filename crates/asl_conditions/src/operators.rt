//! The operators of a condition.
ghost use Rattle.std.specs.Prelude.{◌≡◌};
ghost use Rattle.asl_conditions.specs.Operators as spec;

/// An operator before its operand.
#[derive(Clone, Copy, Debug)]
pub enum ConditionPrefix {
    /// `!`
    Not,
    /// `~`
    Complement,
}

/// An operator between its operands.
#[derive(Clone, Copy, Debug)]
pub enum ConditionInfix {
    /// `*`
    Multiply,
    /// `/`
    Divide,
    /// `%`
    Remainder,
    /// `+`
    Add,
    /// `-`
    Subtract,
    /// `<<`
    ShiftLeft,
    /// `>>`
    ShiftRight,
    /// `<`
    Less,
    /// `<=`
    AtMost,
    /// `>`
    Greater,
    /// `>=`
    AtLeast,
    /// `==`
    Equal,
    /// `!=`
    Unequal,
    /// `&`
    BitAnd,
    /// `^`
    BitXor,
    /// `|`
    BitOr,
    /// `&&`
    Both,
    /// `||`
    Either,
}

/// An operand and the operator behind it.
#[derive(Clone, Copy, Debug)]
pub struct Operand {
    pub value: u64,
    pub operator: ConditionInfix,
}

/// 1 for true, 0 for false.
pub fn truth(holds: bool) -> u64
    ensures { result ≡ spec.truth holds }
{
    if holds { 1 } else { 0 }
}

/// What a prefix operator gives.
pub fn apply_prefix(operator: ConditionPrefix, x: u64) -> u64
    ensures { result ≡ spec.apply_prefix operator x }
{
    match operator {
        ConditionPrefix::Not => truth(x == 0),
        ConditionPrefix::Complement => !x,
    }
}

fn shift_left(x: u64, y: u64) -> u64
    ensures { spec.apply ConditionInfix.ShiftLeft x y ≡ Some result }
{
    if y < 64 { x << y as u32 } else { 0 }
}

fn shift_right(x: u64, y: u64) -> u64
    ensures { spec.apply ConditionInfix.ShiftRight x y ≡ Some result }
{
    if y < 64 { x >> y as u32 } else { 0 }
}

/// What an operator gives, on numbers that wrap; none where it divides by 0. A shift by 64 or more gives 0.
pub fn apply(operator: ConditionInfix, x: u64, y: u64) -> Option<u64>
    ensures { result ≡ spec.apply operator x y }
{
    match operator {
        ConditionInfix::Multiply => Some(x.wrapping_mul(y)),
        ConditionInfix::Divide => x.checked_div(y),
        ConditionInfix::Remainder => x.checked_rem(y),
        ConditionInfix::Add => Some(x.wrapping_add(y)),
        ConditionInfix::Subtract => Some(x.wrapping_sub(y)),
        ConditionInfix::ShiftLeft => Some(shift_left(x, y)),
        ConditionInfix::ShiftRight => Some(shift_right(x, y)),
        ConditionInfix::Less => Some(truth(x < y)),
        ConditionInfix::AtMost => Some(truth(x <= y)),
        ConditionInfix::Greater => Some(truth(x > y)),
        ConditionInfix::AtLeast => Some(truth(x >= y)),
        ConditionInfix::Equal => Some(truth(x == y)),
        ConditionInfix::Unequal => Some(truth(x != y)),
        ConditionInfix::BitAnd => Some(x & y),
        ConditionInfix::BitXor => Some(x ^ y),
        ConditionInfix::BitOr => Some(x | y),
        ConditionInfix::Both => Some(truth(x != 0 && y != 0)),
        ConditionInfix::Either => Some(truth(x != 0 || y != 0)),
    }
}

/// How tightly an operator holds its operands; 1 is the tightest, 10 the loosest.
pub fn level_of(operator: ConditionInfix) -> u8
    ensures { result ≡ spec.level_of operator }
{
    match operator {
        ConditionInfix::Multiply | ConditionInfix::Divide | ConditionInfix::Remainder => 1,
        ConditionInfix::Add | ConditionInfix::Subtract => 2,
        ConditionInfix::ShiftLeft | ConditionInfix::ShiftRight => 3,
        ConditionInfix::Less
        | ConditionInfix::AtMost
        | ConditionInfix::Greater
        | ConditionInfix::AtLeast => 4,
        ConditionInfix::Equal | ConditionInfix::Unequal => 5,
        ConditionInfix::BitAnd => 6,
        ConditionInfix::BitXor => 7,
        ConditionInfix::BitOr => 8,
        ConditionInfix::Both => 9,
        ConditionInfix::Either => 10,
    }
}
