//! Simplification by a queue of collapses with their costs (Garland and Heckbert, "Surface Simplification Using Quadric
//! Error Metrics", 1997): the cheapest collapse that can be made is made, again and again.
#![tactic(auto)]

mod around;
pub mod laws;
mod mesh;
mod refresh;
mod simplification;
mod steps;
mod turn;

pub use mesh::Simplifiable;
pub use simplification::simplify;
