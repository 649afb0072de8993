//! Definitions alone: the opcodes, the bytes of a core tree, and what the bytes of a table mean.
#![tactic(auto)]
