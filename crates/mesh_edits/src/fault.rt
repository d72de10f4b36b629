//! Why there is no fragment of a patch.

use half_edge::HalfFault;
use mesh_data::Shape;
use std::alloc::AllocError;

/// Why there is no fragment of a patch.
#[derive(Clone, Copy, Debug, PartialEq, Eq)]
pub enum FragmentFault {
    /// The patch's triangles aren't those of an oriented manifold at its vertices: what an audit of them finds first.
    Clash(Shape),
    /// Want of memory.
    Memory,
}

impl From<AllocError> for FragmentFault {
    ghost use Rattle.std.specs.Prelude.{◌≡◌};
    ghost use Rattle.mesh_edits.specs.declared.fault.FragmentFault.TheVariants.{Memory};

    ghost from_gives = { λ _ fault. fault ≡ Memory };

    fn from(_refused: AllocError) -> FragmentFault {
        FragmentFault::Memory
    }
}

impl From<HalfFault> for FragmentFault {
    ghost use Rattle.std.specs.Prelude.{◌≡◌};
    ghost use Rattle.mesh_edits.specs.Faults.{of_half};

    ghost from_gives = { λ bad fault. fault ≡ of_half bad };

    fn from(bad: HalfFault) -> FragmentFault {
        match bad {
            HalfFault::Bad(shape) => FragmentFault::Clash(shape),
            HalfFault::Memory => FragmentFault::Memory,
        }
    }
}
