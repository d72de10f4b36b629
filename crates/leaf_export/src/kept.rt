//! What is kept of the sheets of leaves.

ghost use Rattle.std.specs.Prelude.{◌≡◌, ◌≤◌, ◌<◌, ◌++◌, ◌∷◌, [], ℕ, List, length, map, All, IfOk, OnOk, None};
ghost use Rattle.std.specs.List.{sum_by};
ghost use Rattle.std.specs.List.Sorted.{IsNonDecreasing, IsPermutation};
ghost use Rattle.oemm_octree.specs.declared.cells.Cell.{Cell};
ghost use Rattle.mesh_data.specs.Triangles.{IsBelow};
ghost use Rattle.sheet_data.specs.declared.sheets.LeafSheet.{LeafSheet};
ghost use Rattle.sheet_forms.specs.Formed.{IsSheetOf};
ghost use Rattle.patch_assembly.specs.Clashes.{Makes, clash_in, first_twice, least_twice};
ghost use Rattle.leaf_export.specs.Files.{parts_in};
ghost use Rattle.leaf_export.specs.Kept.{Keeps};

use crate::places::{first_unplaced, place_faces, place_names};
use mesh_data::{Name, Shape, Tri, Tris};
use oemm_limits::MOST_ITEMS;
use oemm_octree::{Point, Points};
use patch_assembly::{AssemblyFault, Clash};
use sheet_data::{LeafSheet, SheetVertex};
use std::alloc::{AllocError, Global};

/// The greatest number of planes of all vertices.
const MOST_PLANES: u64 = 3 << 24;

/// What is kept of sheets: the names and the points of their vertices, the number of their planes, and their faces.
#[derive(Drop)]
pub(crate) struct Kept {
    pub(crate) names: Vec<Name>,
    pub(crate) points: Vec<Point>,
    /// It stands still at the greatest number that there is.
    pub(crate) planes: u64,
    pub(crate) faces: Vec<Tri>,
}

/// Puts the names of vertices at the end.
fn add_names(out: &mut Vec<Name>, vertices: &[SheetVertex]) -> Result<(), AllocError>
    ensures { OnOk result (out.new.items ≡ out.old.items ++ map (λ x. x.name) vertices.now) }
{
    for x in vertices {
        out.push(x.name)?;
    }
    Ok(())
}

/// Puts the points of vertices at the end.
fn add_points(out: &mut Vec<Point>, vertices: &[SheetVertex]) -> Result<(), AllocError>
    ensures { OnOk result (out.new.items ≡ out.old.items ++ map (λ x. x.point) vertices.now) }
{
    for x in vertices {
        out.push(x.point)?;
    }
    Ok(())
}

/// The number of planes of the vertices.
fn planes_of(vertices: &[SheetVertex]) -> u64
    requires { length vertices.now ≤ MOST_ITEMS }
    ensures { result ≡ sum_by (λ x. x.quad.planes) vertices.now }
{
    vertices.iter().map(|x| u64::from(x.quad.planes)).sum()
}

/// The first name that stands beside an equal one.
fn first_twice(names: &[Name]) -> Option<Name>
    ensures { result ≡ first_twice names.now }
{
    let mut left = names;
    while let [v, rest @ ..] = left {
        if rest.first() == Some(v) {
            return Some(*v);
        }
        left = rest;
    }
    None
}

/// The names, sorted.
fn sorted(alloc: Global, names: &[Name]) -> Result<Vec<Name>, AllocError>
    ensures moved { IfOk result (λ sorted. IsPermutation names.now sorted.items) }
    ensures rise { IfOk result (λ sorted. IsNonDecreasing sorted.items) }
{
    let mut sorted = names.iter().copied().collect::<Vec<Name>>(alloc)?;
    sorted.sort_unstable();
    Ok(sorted)
}

/// The least name that comes more than once.
fn least_twice(alloc: Global, names: &[Name]) -> Result<Option<Name>, AllocError>
    ensures { IfOk result (λ v. v ≡ least_twice names.now) }
{
    let sorted = sorted(alloc, names)?;
    Ok(first_twice(sorted.as_slice()))
}

impl Kept {
    /// That of no sheets.
    pub(crate) fn new(alloc: Global) -> Kept
        ensures { Keeps [] result }
    {
        Kept {
            names: Vec::new(alloc),
            points: Vec::new(alloc),
            planes: 0,
            faces: Vec::new(alloc),
        }
    }

    /// Puts a sheet behind the others.
    pub(crate) fn add(&mut self, sheet: &LeafSheet) -> Result<(), AllocError>
        requires few { length sheet.now.vertices ≤ MOST_ITEMS }
        ensures { OnOk result ((sheets : List LeafSheet) → Keeps sheets self.old
            → Keeps (sheets ++ sheet.now ∷ []) self.new) }
    {
        let vertices = sheet.vertices.slice();
        add_names(&mut self.names, vertices)?;
        add_points(&mut self.points, vertices)?;
        self.planes = self.planes.saturating_add(planes_of(vertices));
        self.faces.extend_from_slice(sheet.faces.slice())
    }

    /// What shows that the sheets are of no mesh, but for names of faces that no vertex has.
    fn clash(&self, alloc: Global) -> Result<Option<Clash>, AllocError>
        ensures told { IfOk result (λ clash. (sheets : List LeafSheet) (cells : List Cell) (names : ℕ)
            → Keeps sheets self.now → All (λ s. IsSheetOf cells names s.leaf s) sheets → names ≤ MOST_ITEMS
            → clash ≡ clash_in sheets []) }
        ensures once { IfOk result (λ clash. clash ≡ None → least_twice self.now.names.items ≡ None) }
    {
        if let Some(v) = least_twice(alloc, self.names.as_slice())? {
            return Ok(Some(Clash::Twice { v }));
        }
        if self.planes > MOST_PLANES {
            return Ok(Some(Clash::Planes { count: self.planes }));
        }
        let count = self.faces.as_slice().len() as u64;
        if count > MOST_ITEMS {
            return Ok(Some(Clash::Many { count }));
        }
        Ok(None)
    }

    /// The points and the faces of the file of the sheets, whose names are below so many.
    ///
    /// # Errors
    /// What shows that they are of no mesh, and want of memory.
    pub(crate) fn into_parts(
        self,
        alloc: Global,
        below: u32,
    ) -> Result<(Points, Tris), AssemblyFault>
        requires most { below ≤ MOST_ITEMS }
        requires names { All (λ v. v < below) self.names.items }
        requires faces { All (IsBelow below) self.faces.items }
        ensures { (sheets : List LeafSheet) (cells : List Cell) → Keeps sheets self
            → All (λ s. IsSheetOf cells below s.leaf s) sheets → Makes result (parts_in sheets) }
    {
        if let Some(clash) = self.clash(alloc)? {
            return Err(AssemblyFault::Clash(clash));
        }
        let Kept {
            names,
            points,
            planes: _,
            mut faces,
        } = self;
        let table = place_names(alloc, names.as_slice(), below)?;
        if let Some(v) = first_unplaced(table.as_slice(), faces.as_slice()) {
            return Err(AssemblyFault::Clash(Clash::Shape(Shape::Vertex { v })));
        }
        place_faces(table.as_slice(), faces.as_mut_slice());
        Ok((Points::from_vec(points), Tris::from_vec(faces)))
    }
}
