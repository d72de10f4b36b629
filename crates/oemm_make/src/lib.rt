//! What is made for trials: a mesh of any size, from a number, the tasks that go over an octree leaf by leaf, and the
//! text of a script.
#![tactic(auto)]

mod grid;
pub mod laws;
mod leaf_tasks;
mod random;
mod sample;
mod store_tiles;
#[cfg(test)]
mod tests;
mod text;

pub use leaf_tasks::tiles;
pub use sample::Sample;
pub use store_tiles::tile;
pub use text::script_text;
