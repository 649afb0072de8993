//! How many bytes the terms of a core have, and the room for the pieces of its tables.
#![tactic(auto)]

pub mod codes;
mod draft;
pub mod else_if;
pub mod item_sizes;
mod leaf_sizes;
pub mod length;
pub mod measure;
mod notes;
pub mod operands;
pub mod reserve;
mod sizes;
pub mod space;
pub mod stop;
pub mod style;
