//! The neighbours round a vertex.

use crate::names::Name;
use oemm_lists::List;

/// A list of names.
pub type Names = List<Name>;

/// The neighbours of a vertex, in the order in which its triangles go round it.
#[derive(Debug, Drop)]
pub struct Ring {
    pub names: Names,
    /// The first neighbour follows the last one.
    pub closed: bool,
}
