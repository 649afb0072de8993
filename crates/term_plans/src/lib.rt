//! Definitions and laws alone: a program's tree as plain data, by which the checks of its terms are stated.
#![tactic(auto)]
