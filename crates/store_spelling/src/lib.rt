//! What the bytes of a store spell: an index, sheets and entries, by the one spelling that each has.
#![tactic(auto)]

pub mod laws;
