//! A reader of ASCII OFF meshes: the word `OFF`, the counts of vertices and faces, a line of three coordinates for
//! each vertex, and a line of `3` and three indices for each face.
#![tactic(auto)]

mod body;
mod filled;
mod head;
pub mod laws;
mod line;
mod numbers;
mod progress;
mod reader;
#[cfg(test)]
mod tests;
mod values;

pub use reader::OffReader;
