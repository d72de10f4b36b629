//! What is kept of the sheets of leaves.

ghost use Rattle.std.specs.Prelude.{◌≡◌, ◌<◌, ◌≤◌, ◌+◌, ◌^◌, ◌++◌, ◌∷◌, [], ℕ, List, length, All, IfOk, OnOk};
ghost use Rattle.std.specs.List.{sum_by};
ghost use Rattle.oemm_octree.specs.declared.cells.Cell.{Cell};
ghost use Rattle.sheet_data.specs.declared.sheets.LeafSheet.{LeafSheet};
ghost use Rattle.sheet_forms.specs.Formed.{IsSheetOf};
ghost use Rattle.patch_assembly.specs.Clashes.{clash_in};
ghost use Rattle.leaf_audit.specs.Tallies.{Tallies};

use crate::names::{count_names, first_twice, no_times};
use mesh_data::Tri;
use oemm_limits::MOST_ITEMS;
use oemm_shelf::Clash;
use sheet_data::{LeafSheet, SheetVertex};
use std::alloc::{AllocError, Global};

/// The greatest number of planes of all vertices.
const MOST_PLANES: u64 = 3 << 24;

/// What is kept of sheets: how often each name comes, 2 for more often, how many vertices, planes and faces they have, and
/// the faces, as long as there aren't more than a mesh has.
#[derive(Debug, Drop)]
pub(crate) struct Tally {
    pub(crate) times: Vec<u8>,
    pub(crate) vertices: u64,
    /// It stands still at the greatest number that there is.
    pub(crate) planes: u64,
    pub(crate) count: u64,
    pub(crate) faces: Vec<Tri>,
}

/// The number of planes of the vertices.
fn planes_of(vertices: &[SheetVertex]) -> u64
    requires { length vertices.now ≤ MOST_ITEMS }
    ensures { result ≡ sum_by (λ x. x.quad.planes) vertices.now }
{
    vertices.iter().map(|x| u64::from(x.quad.planes)).sum()
}

impl Tally {
    /// That of no sheets, whose names are to be below so many.
    pub(crate) fn new(alloc: Global, names: u32) -> Result<Tally, AllocError>
        ensures len { IfOk result (λ t. length t.times.items ≡ names) }
        ensures none { IfOk result (Tallies []) }
        ensures vertices { IfOk result (λ t. t.vertices ≡ 0) }
        ensures count { IfOk result (λ t. t.count ≡ 0) }
    {
        Ok(Tally {
            times: no_times(alloc, names)?,
            vertices: 0,
            planes: 0,
            count: 0,
            faces: Vec::new(alloc),
        })
    }

    /// Puts a sheet to the others.
    pub(crate) fn add(&mut self, sheet: &LeafSheet) -> Result<(), AllocError>
        requires names { All (λ x. x.name < length self.old.times.items) sheet.now.vertices }
        requires few { length sheet.now.vertices ≤ MOST_ITEMS }
        requires vertices { self.old.vertices + length sheet.now.vertices < 2 ^ 64 }
        requires count { self.old.count + length sheet.now.faces < 2 ^ 64 }
        ensures len { OnOk result (length self.new.times.items ≡ length self.old.times.items) }
        ensures tallies { OnOk result ((sheets : List LeafSheet) → Tallies sheets self.old
            → Tallies (sheets ++ sheet.now ∷ []) self.new) }
        ensures vertices { OnOk result (self.new.vertices ≡ self.old.vertices + length sheet.now.vertices) }
        ensures count { OnOk result (self.new.count ≡ self.old.count + length sheet.now.faces) }
    {
        count_names(self.times.as_mut_slice(), sheet.vertices.slice());
        self.vertices += sheet.vertices.len() as u64;
        self.planes = self
            .planes
            .saturating_add(planes_of(sheet.vertices.slice()));
        self.count += sheet.faces.len() as u64;
        if self.count <= MOST_ITEMS {
            self.faces.extend_from_slice(sheet.faces.slice())
        } else {
            Ok(())
        }
    }

    /// What shows that the sheets aren't of one mesh.
    pub(crate) fn clash(&self) -> Option<Clash>
        requires { length self.now.times.items ≤ MOST_ITEMS }
        ensures { (sheets : List LeafSheet) (cells : List Cell) → Tallies sheets self.now
            → All (λ s. IsSheetOf cells (length self.now.times.items) s.leaf s) sheets → result ≡ clash_in sheets [] }
    {
        if let Some(v) = first_twice(self.times.as_slice()) {
            return Some(Clash::Twice { v });
        }
        if self.planes > MOST_PLANES {
            return Some(Clash::Planes { count: self.planes });
        }
        if self.count > MOST_ITEMS {
            return Some(Clash::Many { count: self.count });
        }
        None
    }
}
