//! The mesh that a run works on.

ghost use Rattle.std.specs.Prelude.{◌≡◌};
ghost use Rattle.oemm_run.specs.Soup.{IsSoup};
ghost use Rattle.oemm_run.specs.Phases.Shape.{end_of_shape, MakesStart};

use crate::end::End;
use mesh_data::{Audit, Shape, Soup};
use mesh_model::PlainMesh;
use std::alloc::{AllocError, Global};

/// Why a mesh isn't worked on.
#[derive(Clone, Copy, Debug, PartialEq, Eq)]
pub enum ShapeFault {
    /// It is no oriented manifold.
    Bad(Shape),
    Memory,
}

impl From<AllocError> for ShapeFault {
    ghost use Rattle.std.specs.Prelude.{◌≡◌};
    ghost use Rattle.oemm_run.specs.declared.phases.shape.ShapeFault.TheVariants.{Memory};

    ghost from_gives = { λ _ fault. fault ≡ Memory };

    fn from(_: AllocError) -> ShapeFault {
        ShapeFault::Memory
    }
}

/// The end that tells why a mesh can't be worked on.
pub fn end_of_shape(fault: ShapeFault) -> End
    ensures { result ≡ end_of_shape fault }
{
    match fault {
        ShapeFault::Bad(shape) => End::MeshShape(shape),
        ShapeFault::Memory => End::Memory,
    }
}

/// The start mesh of points and faces, which is an oriented manifold.
///
/// # Errors
/// `Bad` with the least directed edge that two faces have, else with the least vertex that is in a face and has no
/// ring; and `Memory`.
pub fn start_mesh(alloc: Global, soup: &Soup) -> Result<PlainMesh, ShapeFault>
    requires { IsSoup soup.now }
    ensures { MakesStart soup.now result }
{
    let mesh = PlainMesh::from_soup(alloc, soup.points.slice(), soup.faces.slice())?;
    match mesh.audit(alloc)? {
        Audit::Good { .. } => Ok(mesh),
        Audit::Bad(shape) => Err(ShapeFault::Bad(shape)),
    }
}
