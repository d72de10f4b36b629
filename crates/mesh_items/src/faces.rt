//! What the indices of a face mean.

ghost use Rattle.std.specs.Prelude.{◌≡◌, ◌<◌, IfErr, IfOk, IfSome};
ghost use Rattle.mesh_data.specs.Triangles.{IsProper};
ghost use Rattle.mesh_items.specs.Faces as faces;
ghost use Rattle.mesh_items.specs.Results.{IsOfText};

use super::faults::fault_at;
use crate::items::{MeshFault, MeshWhy};
use mesh_data::{Name, Tri};

/// The name that an index means among so many vertices, if it is in range.
pub fn name_of(index: i64, vertices: u32) -> Option<u32>
    ensures name { result ≡ faces.name_of vertices index }
    ensures below { IfSome result (λ n. n < vertices) }
{
    let name = u32::try_from(index).ok()?;
    (name < vertices).then_some(name)
}

/// The triangle that three indices of a face mean, each None where it is out of range.
///
/// # Errors
/// `BadIndex` where one of them is out of range, and else `Repeated` where two are equal, each at the place `at`.
#[tactic(auto, unfolding(crate::specs::Faces::triangle_of))]
pub fn triangle_of(
    at: u64,
    face: u32,
    i: Option<u32>,
    j: Option<u32>,
    k: Option<u32>,
) -> Result<Tri, MeshFault>
    ensures exact { result ≡ faces.triangle_of at face i j k }
    ensures fault { IfErr result IsOfText }
    ensures proper { IfOk result IsProper }
    ensures names { IfOk result (λ t. (i ≡ Some t.a) × (j ≡ Some t.b) × (k ≡ Some t.c)) }
{
    let (Some(a), Some(b), Some(c)) = (i, j, k) else {
        return Err(fault_at(at, MeshWhy::BadIndex { face }));
    };
    if a == b || b == c || c == a {
        return Err(fault_at(at, MeshWhy::Repeated { face }));
    }
    Ok(Tri {
        a: Name(a),
        b: Name(b),
        c: Name(c),
    })
}
