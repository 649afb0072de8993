//! What names denote where resource descriptors have names, and what is wrong with these.
#![tactic(auto)]

pub mod check;
pub mod described;
pub mod fields;
pub mod forget;
pub mod sense;
pub mod told;
