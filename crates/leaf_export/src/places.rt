//! The places of names, by a table.

ghost use Rattle.std.specs.Prelude.{◌≡◌, ◌<◌, ◌≤◌, ◌++◌, ◌∷◌, [], ℕ, List, length, map, All, IfOk};
ghost use Rattle.std.specs.List.{find, flat_map};
ghost use Rattle.mesh_data.specs.Triangles.{IsBelow, corners};
ghost use Rattle.leaf_export.specs.Tables.{ArePlaces, lacks, looked_up};

use mesh_data::{Name, Tri};
use std::alloc::{AllocError, Global};

/// It stands for no place.
pub(crate) const NO_PLACE: u32 = u32::MAX;

/// Puts a name behind those that have a place.
fn place_name(table: &mut [u32], v: Name, place: u32)
    requires room { v < length table.old }
    requires some { place < NO_PLACE }
    ensures len { length table.new ≡ length table.old }
    ensures placed { (names : List ℕ) → length names ≡ place → ArePlaces names table.old
        → ArePlaces (names ++ v ∷ []) table.new }
{
    let slot = v.0 as usize;
    if table[slot] == NO_PLACE {
        table[slot] = place;
    }
}

/// A table of the places of names, which are below so many. A name that comes twice has its first place.
pub(crate) fn place_names(alloc: Global, names: &[Name], below: u32) -> Result<Vec<u32>, AllocError>
    requires below { All (λ v. v < below) names.now }
    requires few { length names.now ≤ NO_PLACE }
    ensures len { IfOk result (λ table. length table.items ≡ below) }
    ensures places { IfOk result (λ table. ArePlaces names.now table.items) }
{
    let mut table = vec![in alloc; NO_PLACE; below as usize]?;
    for (place, v) in names.iter().enumerate() {
        place_name(table.as_mut_slice(), *v, place as u32);
    }
    Ok(table)
}

/// Whether the table has no place of a name.
fn lacks(table: &[u32], v: Name) -> bool
    requires { v < length table.now }
    ensures { result ≡ lacks table.now v }
{
    table[v.0 as usize] == NO_PLACE
}

/// The first corner of a triangle that has no place.
fn first_lacking(table: &[u32], t: &Tri) -> Option<Name>
    requires { IsBelow (length table.now) t.now }
    ensures { result ≡ find (lacks table.now) (corners t.now) }
{
    if lacks(table, t.a) {
        return Some(t.a);
    }
    if lacks(table, t.b) {
        return Some(t.b);
    }
    if lacks(table, t.c) {
        return Some(t.c);
    }
    None
}

/// The first name of triangles, in their order, that has no place.
pub(crate) fn first_unplaced(table: &[u32], faces: &[Tri]) -> Option<Name>
    requires { All (IsBelow (length table.now)) faces.now }
    ensures { result ≡ find (lacks table.now) (flat_map corners faces.now) }
{
    for t in faces {
        if let Some(v) = first_lacking(table, t) {
            return Some(v);
        }
    }
    None
}

/// A triangle with the places of its names.
fn looked_up(table: &[u32], t: &Tri) -> Tri
    requires { IsBelow (length table.now) t.now }
    ensures { result ≡ looked_up table.now t.now }
{
    Tri {
        a: Name(table[t.a.0 as usize]),
        b: Name(table[t.b.0 as usize]),
        c: Name(table[t.c.0 as usize]),
    }
}

/// Puts places for the names of triangles.
pub(crate) fn place_faces(table: &[u32], faces: &mut [Tri])
    requires { All (IsBelow (length table.now)) faces.old }
    ensures { faces.new ≡ map (looked_up table.now) faces.old }
{
    for t in faces.iter_mut() {
        *t = looked_up(table, t);
    }
}
