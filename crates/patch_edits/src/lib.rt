//! What edits answer on the patch of a core, and what they make of it: definitions, and what follows from them.
#![tactic(auto)]

pub mod laws;
