//! The file of a mesh that stands in a store, leaf by leaf.
#![tactic(auto)]

mod exporting;
mod fault;
mod kept;
pub mod laws;
mod places;
mod reading;

pub use exporting::export;
pub use fault::ExportFault;

#[cfg(test)]
mod tests;
