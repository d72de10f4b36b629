//! The points and faces that a reader of a mesh gives, all of them.
#![tactic(auto)]

mod soup;

pub use soup::{SoupFault, read_soup};
