//! The patch of a core of leaves, made of the sheets of its leaves and of those round them, and what shows that sheets
//! aren't of one mesh.
#![tactic(auto)]

mod assembly;
mod clash;
mod faces;
mod held;
pub mod laws;
mod members;
mod near;

pub use assembly::assemble;
pub use clash::{AssemblyFault, Clash};

#[cfg(test)]
mod tests;
