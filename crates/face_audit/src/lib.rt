//! The audit of a list of faces, part by part of their names, in the memory of one part at a time.
#![tactic(auto)]

mod audit;
pub mod laws;
mod parts;

pub use audit::audit_faces;

#[cfg(test)]
mod tests;
