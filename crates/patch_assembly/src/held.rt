//! The vertices of a core's sheets.

ghost use Rattle.std.specs.Prelude.{◌≡◌, ◌≤◌, ◌++◌, length, map, IfOk, OnOk};
ghost use Rattle.std.specs.List.{flat_map, sum_by};
ghost use Rattle.std.specs.List.Sorted.{IsNonDecreasing, IsNonDecreasingBy, IsPermutation};
ghost use Rattle.mesh_sheets.specs.Assembled.{by_name};
ghost use Rattle.patch_assembly.specs.Clashes.{AreNamed, Tells, first_twice, own_clash};

use crate::clash::{AssemblyFault, Clash};
use mesh_data::{List, Name, NameSet};
use oemm_limits::MOST_ITEMS;
use sheet_data::{LeafSheet, SheetVertex};
use std::alloc::{AllocError, Global};

/// The greatest number of planes of all vertices.
const MOST_PLANES: u64 = 3 << 24;

/// Puts these vertices at the end.
fn add_vertices(out: &mut Vec<SheetVertex>, vertices: &[SheetVertex]) -> Result<(), AllocError>
    ensures { OnOk result (out.new.items ≡ out.old.items ++ vertices.now) }
{
    for v in vertices {
        out.push(SheetVertex {
            name: v.name,
            point: v.point,
            quad: v.quad,
        })?;
    }
    Ok(())
}

/// The vertices of the sheets, one sheet after another.
fn vertices_of(alloc: Global, sheets: &[LeafSheet]) -> Result<Vec<SheetVertex>, AllocError>
    ensures { IfOk result (λ vertices. vertices.items ≡ flat_map (λ s. s.vertices) sheets.now) }
{
    let mut vertices = Vec::new(alloc);
    for sheet in sheets {
        add_vertices(&mut vertices, sheet.vertices.slice())?;
    }
    Ok(vertices)
}

/// The vertices of the sheets, sorted by their names.
fn sorted_vertices(alloc: Global, sheets: &[LeafSheet]) -> Result<Vec<SheetVertex>, AllocError>
    ensures moved { IfOk result
        (λ vertices. IsPermutation (flat_map (λ s. s.vertices) sheets.now) vertices.items) }
    ensures sorted { IfOk result (λ vertices. IsNonDecreasingBy (λ x. x.name) vertices.items) }
{
    let mut vertices = vertices_of(alloc, sheets)?;
    vertices.sort_unstable_by_key(|x| x.name);
    Ok(vertices)
}

/// The names of the vertices.
fn names_of(alloc: Global, vertices: &[SheetVertex]) -> Result<Vec<Name>, AllocError>
    ensures { IfOk result (λ names. names.items ≡ map (λ x. x.name) vertices.now) }
{
    vertices.iter().map(|x| x.name).collect(alloc)
}

/// The first name that stands beside an equal one.
fn first_twice(names: &[Name]) -> Option<Name>
    ensures { result ≡ first_twice names.now }
{
    let mut left = names;
    while let [v, rest @ ..] = left {
        if rest.first() == Some(v) {
            return Some(*v);
        }
        left = rest;
    }
    None
}

/// The number of planes of the vertices.
fn planes_of(vertices: &[SheetVertex]) -> u64
    requires { length vertices.now ≤ MOST_ITEMS }
    ensures { result ≡ sum_by (λ x. x.quad.planes) vertices.now }
{
    vertices.iter().map(|x| u64::from(x.quad.planes)).sum()
}

/// The vertices of a core's sheets in the order of their names, and their names.
///
/// # Errors
/// A name that comes twice, the least one, or else too many planes; and want of memory.
pub fn held_by(
    alloc: Global,
    inner: &[LeafSheet],
) -> Result<(Vec<SheetVertex>, NameSet), AssemblyFault>
    requires { AreNamed inner.now }
    ensures tells { Tells result (own_clash inner.now) }
    ensures vertices { IfOk result (λ held. held.0.items ≡ by_name (flat_map (λ s. s.vertices) inner.now)) }
    ensures names { IfOk result (λ held. held.1 ≡ map (λ x. x.name) held.0.items) }
{
    let vertices = sorted_vertices(alloc, inner)?;
    let names = names_of(alloc, vertices.as_slice())?;
    if let Some(v) = first_twice(names.as_slice()) {
        return Err(AssemblyFault::Clash(Clash::Twice { v }));
    }
    let count = planes_of(vertices.as_slice());
    if count > MOST_PLANES {
        return Err(AssemblyFault::Clash(Clash::Planes { count }));
    }
    Ok((vertices, NameSet::of(List::from_vec(names))))
}
