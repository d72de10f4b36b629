//! A mesh that is cut.

ghost use Rattle.std.specs.Prelude.{◌≡◌, ◌<◌, ◌≤◌, length, All, IfOk};
ghost use Rattle.oemm_limits.specs.declared.TheConstants.{MOST_ITEMS};
ghost use Rattle.oemm_octree.specs.Leaves.{AreTiles};
ghost use Rattle.oemm_octree.specs.Octree.{IsOnGrid};
ghost use Rattle.mesh_data.specs.Mesh.{start_tris};
ghost use Rattle.mesh_data.specs.Triangles.{IsBelow, IsProper};
ghost use Rattle.mesh_sheets.specs.Sheets.{sheet};
ghost use Rattle.mesh_cutting.specs.Cuts.{IsCut, mesh_in};

use crate::grouping::{corners_by_leaf, homes_of, names_by_leaf, tris_by_keeper};
use crate::near::{near_at, tris_of};
use crate::runs::of_leaf;
use crate::vertices::vertices_of;
use mesh_data::{Name, Tri, Tris};
use oemm_lists::List;
use oemm_octree::{Cells, LeafNo, Points};
use sheet_data::LeafSheet;
use std::alloc::{AllocError, Global};
use std::marker::Model;
use triangle_lists::turned_in_order;

/// Points and faces, with what is needed to make the sheet of each leaf of an octree in the time of that sheet.
#[derive(Drop)]
pub struct MeshCut {
    cells: Cells,
    points: Points,
    tris: Vec<Tri>,
    homes: Vec<LeafNo>,
    names: Vec<(LeafNo, Name)>,
    kept: Vec<(LeafNo, Tri)>,
    corners: Vec<(LeafNo, Tri)>,
    ghost cut: { IsCut cells points tris.items homes.items names.items kept.items corners.items },
}

impl Model for MeshCut {
    ghost use Rattle.mesh_cutting.specs.Cuts.{Cut};

    ghost Value = { Cut };

    ghost view = { λ m. record { cells = m.cells; points = m.points; tris = m.tris.items } };
}

impl MeshCut {
    /// The mesh of these points and faces, which are turned and put in order. It takes time of about n log n for n points
    /// and faces, and room for about 76 bytes a face and 18 a point.
    ///
    /// # Errors
    /// Want of memory.
    pub fn of(
        alloc: Global,
        cells: Cells,
        points: Points,
        faces: Tris,
    ) -> Result<MeshCut, AllocError>
        requires tiles { AreTiles cells }
        requires grid { All IsOnGrid points }
        requires few_points { length points ≤ MOST_ITEMS }
        requires few_faces { length faces ≤ MOST_ITEMS }
        requires proper { All IsProper faces }
        requires below { All (IsBelow (length points)) faces }
        ensures { IfOk result (λ cut. cut ≡ record {
          cells = cells;
          points = points;
          tris = start_tris (record { points = points; faces = faces });
        }) }
    {
        let none = LeafNo(cells.len() as u32);
        let tris = turned_in_order(alloc, faces.slice())?;
        let homes = homes_of(alloc, &cells, points.slice())?;
        let names = names_by_leaf(alloc, homes.as_slice(), none)?;
        let kept = tris_by_keeper(alloc, homes.as_slice(), none, tris.as_slice())?;
        let corners = corners_by_leaf(alloc, homes.as_slice(), none, tris.as_slice())?;
        Ok(MeshCut {
            cells,
            points,
            tris,
            homes,
            names,
            kept,
            corners,
        })
    }

    /// The sheet of a leaf. It takes time of about n log n for n vertices and faces with a corner in the leaf, and that of
    /// three binary searches.
    ///
    /// # Errors
    /// Want of memory.
    pub fn sheet(&self, alloc: Global, leaf: LeafNo) -> Result<LeafSheet, AllocError>
        requires { leaf < length self.now.cells }
        ensures { IfOk result (λ made. made ≡ sheet self.now.cells (mesh_in self.now) leaf) }
    {
        let none = LeafNo(self.cells.len() as u32);
        let names = of_leaf(self.names.as_slice(), leaf);
        let own = of_leaf(self.corners.as_slice(), leaf);
        let kept = of_leaf(self.kept.as_slice(), leaf);
        Ok(LeafSheet {
            leaf,
            vertices: vertices_of(alloc, self.points.slice(), names, own)?,
            faces: List::from_vec(tris_of(alloc, kept)?),
            near: near_at(alloc, self.homes.as_slice(), none, leaf, own)?,
        })
    }

    /// The cells.
    pub fn cells(&self) -> &Cells
        ensures { result.now ≡ self.now.cells }
    {
        &self.cells
    }

    /// The points.
    pub fn points(&self) -> &Points
        ensures { result.now ≡ self.now.points }
    {
        &self.points
    }

    /// The triangles, turned and in order.
    pub fn tris(&self) -> &[Tri]
        ensures { result.now ≡ self.now.tris }
    {
        self.tris.as_slice()
    }
}
