//! What stands for For, and a program with what stands for Printf, Fprintf and For.
#![tactic(auto)]

pub mod for_loop;
mod plain;
pub mod program;
mod renew;
pub mod stand;
mod steps;
