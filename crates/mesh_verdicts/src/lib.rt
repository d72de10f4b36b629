//! What edits answer: the tables of verdicts, once for each form in which a mesh is kept.
#![tactic(auto)]

mod mesh_view;
mod replies;

pub use mesh_view::MeshView;
pub use replies::{collapse_reply, flip_reply, move_reply};
