//! Lists of triangles: their order, edges, border, links and rings, and what is first wrong with them.
#![tactic(auto)]

mod audit;
mod edge_sets;
mod held_audit;
pub mod laws;
mod rings;
mod turning;

pub use audit::first_fault;
pub use edge_sets::{border_list, count_undirected};
pub use held_audit::first_held_fault;
pub use rings::{find_ring, has_closed_ring, link_of};
pub use turning::{turned_in_order, turned_tri};

#[cfg(test)]
mod tests;
