ghost use Rattle.std.specs.Prelude.{◌≡◌, ◌<◌, All, IfOk};
ghost use Rattle.oemm_limits.specs.declared.TheConstants.{MOST_ITEMS};
ghost use Rattle.patch_assembly.specs.Clashes.{AreNamed};

use super::*;
use mesh_data::{Name, Quad, Tri, Tris};
use oemm_octree::{LeafNo, LeafSet, Point};
use sheet_data::{LeafSheet, Patch, SheetVertex, SheetVertices, Sheets};
use std::alloc::{AllocError, Global};
use std::test::Fail;

/// Three corners of the octahedron, which lie in one octant, and a triangle of each kind.
const NAMES: [u32; 3] = [4, 0, 2];

const WHOLE: [u32; 3] = [0, 2, 4];

const MIXED: [u32; 3] = [0, 3, 5];

const OUTER: [u32; 3] = [1, 5, 3];

/// A quadric of so many planes that are all zero.
const fn flat(planes: u32) -> Quad
    requires { planes < 50331649 }
{
    Quad {
        planes,
        aa: 0,
        ab: 0,
        ac: 0,
        ad: 0,
        bb: 0,
        bc: 0,
        bd: 0,
        cc: 0,
        cd: 0,
        dd: 0,
    }
}

fn triangle(names: &[u32; 3]) -> Tri {
    Tri {
        a: Name(names[0]),
        b: Name(names[1]),
        c: Name(names[2]),
    }
}

/// A vertex with this name, at the origin.
fn vertex(name: u32, planes: u32) -> SheetVertex
    requires { planes < 50331649 }
    ensures { result.name ≡ name }
{
    SheetVertex {
        name: Name(name),
        point: Point { x: 0, y: 0, z: 0 },
        quad: flat(planes),
    }
}

/// The leaf alone, as a set.
fn one(alloc: Global, leaf: u32) -> Result<LeafSet, AllocError> {
    let mut set = LeafSet::new(alloc);
    set.add(LeafNo(leaf))?;
    Ok(set)
}

/// A sheet of a leaf with vertices of these names, one triangle, and one near leaf.
fn sheet(
    alloc: Global,
    leaf: u32,
    names: &[u32],
    planes: u32,
    face: &[u32; 3],
    near: u32,
) -> Result<LeafSheet, AllocError>
    requires below { All (λ n. n < MOST_ITEMS) names.now }
    requires planes { planes < 50331649 }
    ensures { IfOk result (λ s. All (λ x. x.name < MOST_ITEMS) s.vertices) }
{
    let mut vertices = SheetVertices::new(alloc);
    for name in names {
        vertices.add(vertex(*name, planes))?;
    }
    let mut faces = Tris::new(alloc);
    faces.add(triangle(face))?;
    Ok(LeafSheet {
        leaf: LeafNo(leaf),
        vertices,
        faces,
        near: one(alloc, near)?,
    })
}

/// A sheet behind others.
fn with(mut sheets: Sheets, more: LeafSheet) -> Result<Sheets, AllocError>
    requires sheets { AreNamed sheets }
    requires more { All (λ x. x.name < MOST_ITEMS) more.vertices }
    ensures { IfOk result AreNamed }
{
    sheets.add(more)?;
    Ok(sheets)
}

/// The patch that these sheets make, which don't clash.
fn patch_of(
    alloc: Global,
    core: &LeafSet,
    inner: &Sheets,
    outer: &Sheets,
) -> Result<Patch, AllocError>
    requires { AreNamed inner.now }
{
    match assemble(alloc, core, inner.slice(), outer.slice()) {
        Ok(patch) => Ok(patch),
        Err(_) => Err(AllocError),
    }
}

#[test]
fn sheets_make_a_patch(rt: HostRuntime) -> Result<(), Fail> {
    let alloc = rt.alloc();
    let core = one(alloc, 7)?;
    let inner = sheet(alloc, 7, NAMES.as_slice(), 4, &WHOLE, 3)?;
    let inner = with(Sheets::new(alloc), inner)?;
    let near = sheet(alloc, 3, [].as_slice(), 4, &MIXED, 7)?;
    let far = sheet(alloc, 5, [].as_slice(), 4, &OUTER, 7)?;
    let outer = with(with(Sheets::new(alloc), near)?, far)?;
    let patch = patch_of(alloc, &core, &inner, &outer)?;
    let names = patch
        .vertices
        .slice()
        .iter()
        .map(|x| x.name.0)
        .collect::<Vec<u32>>(alloc)?;
    assert_eq!(rt; names.as_slice(), [0u32, 2, 4].as_slice());
    assert_eq!(rt; patch.whole.slice(), [triangle(&WHOLE)].as_slice());
    let mixed = patch.mixed.slice().first().map(|x| (x.leaf, x.tri));
    assert_eq!(rt;
        (patch.mixed.len(), mixed),
        (1, Some((LeafNo(3), triangle(&MIXED))))
    );
    let near = patch
        .near
        .slice()
        .first()
        .map(|x| (x.leaf, x.outside.len()));
    assert_eq!(rt; near, Some((LeafNo(7), 1)));
    Ok(())
}

/// What two sheets with these names, each vertex with so many planes, clash by.
fn clash(
    alloc: Global,
    first: &[u32],
    second: &[u32],
    planes: u32,
) -> Result<Option<Clash>, AllocError>
    requires first { All (λ n. n < MOST_ITEMS) first.now }
    requires second { All (λ n. n < MOST_ITEMS) second.now }
    requires planes { planes < 50331649 }
{
    let core = one(alloc, 7)?;
    let first = sheet(alloc, 6, first, planes, &WHOLE, 3)?;
    let second = sheet(alloc, 7, second, planes, &WHOLE, 3)?;
    let inner = with(with(Sheets::new(alloc), first)?, second)?;
    let none = Sheets::new(alloc);
    match assemble(alloc, &core, inner.slice(), none.slice()) {
        Ok(_) => Ok(None),
        Err(AssemblyFault::Clash(clash)) => Ok(Some(clash)),
        Err(AssemblyFault::Memory) => Err(AllocError),
    }
}

#[test]
fn clashes_are_told(rt: HostRuntime) -> Result<(), Fail> {
    let alloc = rt.alloc();
    let twice = clash(
        alloc,
        [1u32, 9, 5].as_slice(),
        [9u32, 5].as_slice(),
        50331648,
    )?;
    assert_eq!(rt; twice, Some(Clash::Twice { v: Name(5) }));
    let planes = clash(alloc, [1u32].as_slice(), [2u32].as_slice(), 50331648)?;
    assert_eq!(rt; planes, Some(Clash::Planes { count: 100663296 }));
    let none = clash(alloc, [1u32].as_slice(), [2u32].as_slice(), 25165824)?;
    assert_eq!(rt; none, None);
    Ok(())
}
