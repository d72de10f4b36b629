//! That the entries of a play of a script's tasks have spellings.
#![tactic(auto)]

pub mod laws;
