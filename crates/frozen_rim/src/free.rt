//! Free vertices, found by the triangles that have a corner which isn't held.

ghost use Rattle.std.specs.Prelude.{◌≡◌, ℕ, filter, not, IfOk};
ghost use Rattle.std.specs.List.{flat_map};
ghost use Rattle.mesh_data.specs.Triangles.{corners};
ghost use Rattle.oemm_lists.specs.Numbers.{among};
ghost use Rattle.frozen_rim.specs.Free.{is_free, is_mixed};

use mesh_data::{Name, NameSet, Tri};
use oemm_lists::List;
use std::alloc::{AllocError, Global};
use std::marker::Model;

/// The free vertices of a patch.
#[derive(Debug, Drop)]
pub struct FreeSet {
    names: NameSet,
}

impl Model for FreeSet {
    ghost use Rattle.std.specs.Prelude.{List, ℕ};

    ghost Value = { List ℕ };

    ghost view = { λ s. s.names };
}

/// Whether a corner of the triangle isn't held.
fn is_mixed(held: &NameSet, t: &Tri) -> bool
    ensures { result ≡ is_mixed held.now t.now }
{
    !(held.has(t.a) && held.has(t.b) && held.has(t.c))
}

/// The corners of the triangles that have a corner which isn't held, as often as they come.
fn mixed_corners(alloc: Global, faces: &[Tri], held: &NameSet) -> Result<Vec<Name>, AllocError>
    ensures { IfOk result (λ names. names.items ≡ flat_map corners (filter (is_mixed held.now) faces.now)) }
{
    let mut names = Vec::new(alloc);
    for t in faces {
        if is_mixed(held, t) {
            names.extend_from_slice(&[t.a, t.b, t.c])?;
        }
    }
    Ok(names)
}

/// The same names, each once.
fn set_of(mut names: Vec<Name>) -> NameSet
    ensures { (v : ℕ) → among v result ≡ among v names.items }
{
    names.sort_unstable();
    names.dedup();
    NameSet::of(List::from_vec(names))
}

/// The names that aren't among the others.
fn without(alloc: Global, names: &[Name], others: &NameSet) -> Result<Vec<Name>, AllocError>
    ensures { IfOk result (λ kept. kept.items ≡ filter (λ v. not (among v others.now)) names.now) }
{
    names
        .iter()
        .copied()
        .filter(|v| !others.has(*v))
        .collect(alloc)
}

/// The free vertices: those that are held, and with them each of their neighbours in these triangles. It takes time of
/// about (F + H) log (F + H) for F triangles and H held vertices.
///
/// # Errors
/// Want of memory.
pub fn free_of(alloc: Global, faces: &[Tri], held: &NameSet) -> Result<FreeSet, AllocError>
    ensures { IfOk result (λ free. (v : ℕ) → among v free ≡ is_free faces.now held.now v) }
{
    let frozen = set_of(mixed_corners(alloc, faces, held)?);
    let names = without(alloc, held.slice(), &frozen)?;
    Ok(FreeSet {
        names: NameSet::of(List::from_vec(names)),
    })
}

impl FreeSet {
    /// Whether the vertex is free. It takes no memory, and time of about log H for H free vertices.
    pub fn is_free(&self, v: Name) -> bool
        ensures { result ≡ among v self.now }
    {
        self.names.has(v)
    }
}
