//! The value of a condition.
#![tactic(auto)]

mod numbers;
mod opened;
mod operators;
mod reader;
mod row;
mod tokens;
mod value;

pub use reader::ConditionStop;
pub use value::condition;
