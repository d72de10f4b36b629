//! Edits on a patch in memory, which answer what they would on the whole mesh.
#![tactic(auto)]

mod backup;
mod changes;
mod edits;
mod fault;
mod fragment;
mod made;
mod questions;
mod rounds;
mod simplification;
mod vertices;

pub use fault::FragmentFault;
pub use fragment::Fragment;
