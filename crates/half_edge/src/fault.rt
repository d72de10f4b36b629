//! Why half-edges can't be made.

use mesh_data::Shape;
use std::alloc::AllocError;

/// Why half-edges can't be made of triangles.
#[derive(Clone, Copy, Debug, PartialEq, Eq)]
pub enum HalfFault {
    /// The triangles aren't those of an oriented manifold at the held vertices.
    Bad(Shape),
    /// Want of memory.
    Memory,
}

impl From<AllocError> for HalfFault {
    ghost use Rattle.std.specs.Prelude.{◌≡◌};
    ghost use Rattle.half_edge.specs.declared.fault.HalfFault.TheVariants.{Memory};

    ghost from_gives = { λ _ fault. fault ≡ Memory };

    fn from(_refused: AllocError) -> HalfFault {
        HalfFault::Memory
    }
}
