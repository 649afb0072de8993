//! Definitions and laws alone: the pieces of a source's table as a function of its syntax.
#![tactic(auto)]
