//! What blocks come to: the table or the errors of each, and the tables or the errors of all together.
#![tactic(auto)]

pub mod messages;
pub mod outcome;
