//! A store built from the points and faces of a reader: sheet by sheet, and the index last.
#![tactic(auto)]

mod building;
mod fault;
mod laying;
mod planning;
#[cfg(test)]
mod tests;

pub use building::{Built, build};
pub use fault::BuildFault;
