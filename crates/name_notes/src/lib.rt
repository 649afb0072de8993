//! What is told of the names of a block beside errors: methods of reserved names that take other arguments, and names
//! of methods that nothing uses.
#![tactic(auto)]

pub mod check;
mod marks;
pub mod reserved;
