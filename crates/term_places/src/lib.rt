//! Definitions and laws alone: the places of the terms of term lists, in preorder.
#![tactic(auto)]
