//! The ports over the real system: its files, its outputs and its console.
#![tactic(auto)]

pub mod host;
pub mod program_text;
pub mod refused;
pub mod text;
pub mod whole;
pub mod words;
