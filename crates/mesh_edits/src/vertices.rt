//! The vertices of a patch, by their names.

ghost use Rattle.std.specs.Prelude.{◌≡◌, ◌==◌, ◌+◌, ◌≤◌, filter, map, not, IfOk};
ghost use Rattle.std.specs.List.{find};
ghost use Rattle.std.specs.List.Sorted.{IsStrictlyIncreasing};
ghost use Rattle.std.specs.Option.{option_copied};
ghost use Rattle.mesh_data.specs.Planes.{added, most_planes};
ghost use Rattle.mesh_data.specs.Quads.{sums_in};
ghost use Rattle.mesh_sheets.specs.Assembled.{has_name};
ghost use Rattle.patch_edits.specs.Edits.{with_changed};
ghost use Rattle.patch_edits.specs.PatchMesh.{sums_at};
ghost use Rattle.mesh_edits.specs.Rounds.{place_of};

use mesh_data::{Name, Quad};
use oemm_lists::{Copied, List};
use oemm_octree::Point;
use oemm_plane::QuadSums;
use sheet_data::{SheetVertex, SheetVertices};
use std::alloc::{AllocError, Global};
use std::collections::BTreeMap;
use std::marker::Model;

/// Vertices by their names. Contracts see the list of them, which ascends by name.
#[derive(Drop)]
pub struct PatchVertices {
    by_name: BTreeMap<Name, SheetVertex>,
}

impl Model for PatchVertices {
    ghost use Rattle.std.specs.Prelude.{List};
    ghost use Rattle.std.specs.BTreeMap.{values};
    ghost use Rattle.sheet_data.specs.Summed.{SummedVertex};
    ghost use Rattle.mesh_edits.specs.Keyed.{IsKeyed};

    ghost Value = { List SummedVertex };

    ghost view = { λ v. values v.by_name };

    ghost invariant = { λ v. IsKeyed v.by_name.entries };
}

impl PatchVertices {
    /// These vertices. It takes time of about V log V for V vertices.
    ///
    /// # Errors
    /// Want of memory.
    pub(crate) fn of(alloc: Global, vertices: &[SheetVertex]) -> Result<PatchVertices, AllocError>
        requires { IsStrictlyIncreasing (map (λ x. x.name) vertices.now) }
        ensures { IfOk result (λ made. made ≡ vertices.now) }
    {
        let mut by_name = BTreeMap::new(alloc);
        for vertex in vertices {
            by_name.insert(vertex.name, vertex.copy(alloc)?)?;
        }
        Ok(PatchVertices { by_name })
    }

    /// The vertex of a name, if it has one.
    fn get(&self, v: Name) -> Option<&SheetVertex>
        ensures { option_copied result ≡ find (λ x. v == x.name) self.now }
    {
        self.by_name.get(&v)
    }

    /// Whether the name has a vertex.
    pub(crate) fn has(&self, v: Name) -> bool
        ensures { result ≡ has_name self.now v }
    {
        self.by_name.contains_key(&v)
    }

    /// The point of a name, and the origin where it has no vertex.
    pub(crate) fn place_of(&self, v: Name) -> Point
        ensures { result ≡ place_of self.now v }
    {
        match self.get(v) {
            Some(vertex) => vertex.point,
            None => Point { x: 0, y: 0, z: 0 },
        }
    }

    /// The quadric of a name, and that of no plane where it has no vertex.
    pub(crate) fn quad_of(&self, v: Name) -> Quad
        ensures { sums_in result ≡ sums_at self.now v }
    {
        match self.get(v) {
            Some(vertex) => vertex.quad,
            None => Quad::zero(),
        }
    }

    /// Puts the vertex of a name, if it has one, at another point. It takes no memory.
    pub(crate) fn set_point(&mut self, v: Name, to: Point)
        ensures { self.new ≡ with_changed v (λ x. record x { point = to }) self.old }
    {
        if let Some(vertex) = self.by_name.get_mut(&v) {
            vertex.point = to;
        }
    }

    /// Merges a quadric into that of a name, if it has a vertex.
    fn merge(&mut self, v: Name, quad: &Quad)
        requires { (sums_at self.old v).planes + quad.now.planes ≤ most_planes }
        ensures { self.new ≡ with_changed v (λ x. record x { quad = added x.quad (sums_in quad.now) }) self.old }
    {
        if let Some(vertex) = self.by_name.get_mut(&v) {
            vertex.quad.merge(quad);
        }
    }

    /// Takes the vertex of a name away, if it has one.
    fn remove(&mut self, u: Name)
        ensures { self.new ≡ filter (λ x. not (x.name == u)) self.old }
    {
        self.by_name.remove(&u);
    }

    /// Takes the vertex of `u` away, whose quadric that of `v` takes over. It takes no memory.
    pub(crate) fn take_over(&mut self, u: Name, v: Name)
        requires { (sums_at self.old v).planes + (sums_at self.old u).planes ≤ most_planes }
        ensures { self.new ≡ with_changed v (λ x. record x { quad = added x.quad (sums_at self.old u) })
            (filter (λ x. not (x.name == u)) self.old) }
    {
        let quad = self.quad_of(u);
        self.merge(v, &quad);
        self.remove(u);
    }

    /// The vertices.
    ///
    /// # Errors
    /// Want of memory.
    pub(crate) fn to_list(&self, alloc: Global) -> Result<SheetVertices, AllocError>
        ensures { IfOk result (λ vertices. vertices ≡ self.now) }
    {
        let mut vertices = Vec::new(alloc);
        for vertex in self.by_name.values() {
            vertices.push(vertex.copy(alloc)?)?;
        }
        Ok(List::from_vec(vertices))
    }
}
