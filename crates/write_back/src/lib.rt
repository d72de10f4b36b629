//! Sheets from a patch: what a core of leaves sees of a mesh, written back leaf by leaf.
#![tactic(auto)]

mod groups;
mod homes;
mod near;
mod writing;

pub use writing::sheets_of;

#[cfg(test)]
mod tests;
