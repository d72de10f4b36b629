//! Why sheets make no patch.

use mesh_data::{Name, Shape};
use std::alloc::{AllocError, AllocFailed};

/// What shows that sheets aren't of one mesh.
#[derive(Clone, Copy, Debug, PartialEq, Eq)]
pub enum Clash {
    /// The triangles of a patch are no oriented manifold. It comes from the edits on a patch, and never from an assembly.
    Shape(Shape),
    /// Two vertices have this name, and none of a lesser one do.
    Twice { v: Name },
    /// So many planes are in the quadrics of the vertices: more than 3 · 2^24.
    Planes { count: u64 },
    /// So many faces are in the sheets: more than 2^24.
    Many { count: u64 },
}

/// Why a patch isn't made.
#[derive(Clone, Copy, Debug, PartialEq, Eq)]
pub enum AssemblyFault {
    Clash(Clash),
    Memory,
}

impl From<AllocError> for AssemblyFault {
    ghost use Rattle.std.specs.Prelude.{◌≡◌};
    ghost use Rattle.patch_assembly.specs.declared.clash.AssemblyFault.TheVariants.{Memory};

    ghost from_gives = { λ _ fault. fault ≡ Memory };

    fn from(_: AllocError) -> AssemblyFault {
        AssemblyFault::Memory
    }
}

impl<T: Drop> From<AllocFailed<T>> for AssemblyFault {
    ghost use Rattle.std.specs.Prelude.{◌≡◌};
    ghost use Rattle.patch_assembly.specs.declared.clash.AssemblyFault.TheVariants.{Memory};

    ghost from_gives = { λ _ fault. fault ≡ Memory };

    fn from(_: AllocFailed<T>) -> AssemblyFault {
        AssemblyFault::Memory
    }
}

impl From<Clash> for AssemblyFault {
    ghost use Rattle.std.specs.Prelude.{◌≡◌};
    ghost use Rattle.patch_assembly.specs.declared.clash.AssemblyFault.TheVariants as fault;

    ghost from_gives = { λ clash made. made ≡ fault.Clash clash };

    fn from(clash: Clash) -> AssemblyFault {
        AssemblyFault::Clash(clash)
    }
}
