//! Fields whose accesses are wider than their regions.
#![tactic(auto)]

pub mod check;
pub mod measure;
mod site;
