//! What follows of the grammar of binary PLY files, in the words of the format.
#![tactic(auto)]

pub mod laws;
