//! Switches as loops of one turn, which keep the Switch's value in a Local that their method leaves free.
#![tactic(auto)]

mod braces;
pub mod enough;
mod found;
mod kept;
pub mod kind;
pub mod locals;
pub mod loops;
mod made;
mod measure;
mod spare;
mod split;
mod standing;
pub mod switched;
