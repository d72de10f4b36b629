//! The ring of a vertex.

use mesh_data::Name;
use smallvec::SmallVec;
use std::marker::Model;

/// The number of names of a ring that need no memory of their own.
pub(crate) const NAMES_IN_PLACE: usize = 8;

/// The names round a vertex.
#[derive(Drop)]
pub struct RingNames {
    pub(crate) names: SmallVec<Name, NAMES_IN_PLACE>,
}

impl Model for RingNames {
    ghost use Rattle.std.specs.Prelude.{List, ℕ};

    ghost Value = { List ℕ };

    ghost view = { λ r. r.names.items };
}

impl RingNames {
    ghost use Rattle.std.specs.Prelude.{◌≡◌};

    /// The names, lent.
    pub fn slice(&self) -> &[Name]
        ensures { result.now ≡ self.now }
    {
        self.names.as_slice()
    }
}

/// The neighbours of a vertex, in the order in which its triangles go round it.
#[derive(Drop)]
pub struct Ring {
    pub names: RingNames,
    /// The first neighbour follows the last one.
    pub closed: bool,
}
