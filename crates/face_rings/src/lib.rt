//! Lists of triangles by their faces: edges, border, and rings as paths of faces.
#![tactic(auto)]

pub mod laws;
