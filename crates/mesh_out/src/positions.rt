//! Names as places among the names of a mesh.

ghost use Rattle.std.specs.Prelude.{◌≡◌, ◌+◌, IfOk, length, map};
ghost use Rattle.std.specs.List.{All};
ghost use Rattle.mesh_data.specs.Triangles.{IsBelow};
ghost use Rattle.mesh_out.specs.MeshBytes.{position_of, renumbered, IsNamedBy};

use mesh_data::{Name, NameSet, Tri, Tris};
use std::alloc::{AllocError, Global};

/// The number of names below v, which is at most v, since the names ascend.
fn position_of(names: &NameSet, v: Name) -> Name
    ensures { result ≡ position_of names.now v }
{
    let place = names.slice().partition_point(|n| *n < v);
    Name(place as u32)
}

fn renumbered(names: &NameSet, t: &Tri) -> Tri
    ensures { result ≡ renumbered names.now t.now }
{
    Tri {
        a: position_of(names, t.a),
        b: position_of(names, t.b),
        c: position_of(names, t.c),
    }
}

fn renumber_all(alloc: Global, names: &NameSet, tris: &[Tri]) -> Result<Vec<Tri>, AllocError>
    ensures { IfOk result (λ ts. ts.items ≡ map (renumbered names.now) tris.now) }
{
    tris.iter().map(|t| renumbered(names, t)).collect(alloc)
}

/// The triangles with the positions of their names among the names, counted from 0. A name that isn't
/// among them gets the number of names below it.
///
/// # Errors
/// Want of memory.
pub fn renumber(alloc: Global, names: &NameSet, tris: &[Tri]) -> Result<Tris, AllocError>
    ensures places { IfOk result (λ ts. ts ≡ map (renumbered names.now) tris.now) }
    ensures within { All (IsNamedBy names.now) tris.now → IfOk result (All (IsBelow (length names.now))) }
{
    Ok(Tris::from_vec(renumber_all(alloc, names, tris)?))
}
