//! Definitions and laws alone: what a program tree means, and what it takes to show that two runs do the same.
#![tactic(auto)]
