//! The vertices of a mesh by their names.

ghost use Rattle.std.specs.Prelude.{◌≡◌, ◌<◌, ◌+◌, ◌^◌, [], ◌∷◌, ◌++◌, map, length, slice_index_or, IfOk, OnOk, OnErr};
ghost use Rattle.std.specs.Option.{option_copied, option_map, option_map_or};
ghost use Rattle.std.specs.BTreeMap.{IsOrdered, values};
ghost use Rattle.std.specs.Ordering.{nat_cmp};
ghost use Rattle.std.specs.FinMap as finite;
ghost use Rattle.mesh_data.specs.Mesh.{named_from, origin};
ghost use Rattle.plane_counts.specs.Taken.{planes_in, taken_over};

use mesh_data::{Name, NameSet, Plane, Planes, Vertex};
use oemm_lists::{Copied, List};
use oemm_octree::{Point, Points};
use std::alloc::{AllocError, Global};
use std::collections::BTreeMap;
use std::marker::Model;

/// The vertices of a mesh, by their names.
#[derive(Drop)]
pub struct VertexMap {
    vertices: BTreeMap<Name, Vertex>,
}

impl Model for VertexMap {
    ghost use Rattle.std.specs.Ordering.{nat_cmp};
    ghost use Rattle.std.specs.FinMap as finite;
    ghost use Rattle.std.specs.Coded.{coded_ℕ};
    ghost use Rattle.mesh_data.specs.declared.geometry.Vertex.{Vertex};
    ghost use Rattle.mesh_data.specs.Mesh.{vertex_code};

    ghost Value = { finite.FinMap nat_cmp Vertex };

    ghost coded = { finite.code coded_ℕ vertex_code };

    ghost view = { λ a. finite.from_entries a.vertices.entries };
}

impl VertexMap {
    /// No vertices. It takes no memory.
    pub fn new(alloc: Global) -> Self
        ensures { result ≡ finite.empty }
    {
        VertexMap {
            vertices: BTreeMap::new(alloc),
        }
    }

    /// Vertices at these points with these planes, named by their places.
    ///
    /// # Errors
    /// Want of memory.
    pub fn at_points(
        alloc: Global,
        points: &[Point],
        mut planes: Vec<Planes>,
    ) -> Result<VertexMap, AllocError>
        requires few { length points.now < 2 ^ 32 }
        requires whole { length planes.items ≡ length points.now }
        ensures vertices { IfOk result
            (λ m. m ≡ finite.from_entries (named_from (λ v. slice_index_or planes.items v []) 0 points.now)) }
        ensures len { IfOk result (λ m. finite.len m ≡ length points.now) }
    {
        let mut vertices = VertexMap::new(alloc);
        while let Some(last) = planes.pop() {
            let place = planes.len();
            let vertex = Vertex {
                point: points[place],
                planes: last,
            };
            vertices.insert(Name(place as u32), vertex)?;
        }
        Ok(vertices)
    }

    /// The number of vertices.
    pub fn len(&self) -> usize
        ensures { result ≡ finite.len self.now }
    {
        self.vertices.len()
    }

    /// The vertex of a name, if it has one.
    pub fn get(&self, v: Name) -> Option<&Vertex>
        ensures { option_copied result ≡ finite.get self.now v }
    {
        self.vertices.get(&v)
    }

    /// The point of a name, if it has a vertex.
    pub fn point(&self, v: Name) -> Option<Point>
        ensures { result ≡ option_map (λ x. x.point) (finite.get self.now v) }
    {
        let vertex = self.get(v)?;
        Some(vertex.point)
    }

    /// The planes of a name, if it has a vertex.
    pub fn planes(&self, v: Name) -> Option<&Planes>
        ensures { option_copied result ≡ option_map (λ x. x.planes) (finite.get self.now v) }
    {
        let vertex = self.get(v)?;
        Some(&vertex.planes)
    }

    /// The point of a name, and the origin where it has no vertex.
    pub fn point_or_origin(&self, v: Name) -> Point
        ensures { result ≡ option_map_or (λ p. p) (option_map (λ x. x.point) (finite.get self.now v)) origin }
    {
        match self.point(v) {
            Some(point) => point,
            None => Point { x: 0, y: 0, z: 0 },
        }
    }

    /// The planes of a name, and none where it has no vertex.
    pub fn planes_or_none(&self, v: Name) -> &[Plane]
        ensures { result.now ≡ planes_in self.now v }
    {
        match self.planes(v) {
            Some(planes) => planes.slice(),
            None => &[],
        }
    }

    /// A copy.
    ///
    /// # Errors
    /// Want of memory.
    pub fn copy(&self, alloc: Global) -> Result<VertexMap, AllocError>
        ensures { IfOk result (λ copy. copy ≡ self.now) }
    {
        let mut copy = VertexMap::new(alloc);
        for (name, vertex) in self.vertices.iter() {
            copy.insert(*name, vertex.copy(alloc)?)?;
        }
        Ok(copy)
    }

    /// Puts a vertex at a name. For want of memory nothing is changed.
    pub fn insert(&mut self, v: Name, vertex: Vertex) -> Result<(), AllocError>
        ensures ok { OnOk result (self.new ≡ finite.insert self.old v vertex) }
        ensures err { OnErr result (self.new ≡ self.old) }
    {
        self.vertices.insert(v, vertex)?;
        Ok(())
    }

    /// Puts the vertex of a name at another point, and does nothing at a name without one. It takes no memory.
    pub fn set_point(&mut self, v: Name, to: Point)
        ensures vertices { self.new
            ≡ option_map_or (λ x. finite.insert self.old v (record x { point = to })) (finite.get self.old v) self.old }
        ensures len { finite.len self.new ≡ finite.len self.old }
    {
        if let Some(vertex) = self.vertices.get_mut(&v) {
            vertex.point = to;
        }
    }

    /// Gives the vertex of a name other planes, and does nothing at a name without one. It takes no memory.
    fn set_planes(&mut self, v: Name, planes: Planes)
        ensures { self.new ≡ option_map_or (λ x. finite.insert self.old v (record x { planes = planes }))
            (finite.get self.old v) self.old }
    {
        if let Some(vertex) = self.vertices.get_mut(&v) {
            vertex.planes = planes;
        }
    }

    /// Takes the vertex of a name away, if it has one. It takes no memory.
    fn remove(&mut self, v: Name)
        ensures { self.new ≡ finite.remove self.old v }
    {
        self.vertices.remove(&v);
    }

    /// Puts the planes of `u` behind those of `v`, and takes `u` away. For want of memory nothing is changed.
    pub fn take_over(&mut self, alloc: Global, u: Name, v: Name) -> Result<(), AllocError>
        ensures ok { OnOk result (self.new ≡ taken_over self.old u v) }
        ensures err { OnErr result (self.new ≡ self.old) }
    {
        let mut planes = Vec::from_slice(alloc, self.planes_or_none(v))?;
        planes.extend_from_slice(self.planes_or_none(u))?;
        self.set_planes(v, List::from_vec(planes));
        self.remove(u);
        Ok(())
    }

    /// The names, ascending.
    ///
    /// # Errors
    /// Want of memory.
    pub fn names(&self, alloc: Global) -> Result<NameSet, AllocError>
        ensures { IfOk result (λ names. names ≡ finite.keys self.now) }
    {
        let mut names = NameSet::new(alloc);
        for name in self.vertices.keys() {
            names.add(*name)?;
        }
        Ok(names)
    }

    /// The points, in the order of the names.
    ///
    /// # Errors
    /// Want of memory.
    pub fn points(&self, alloc: Global) -> Result<Points, AllocError>
        ensures { IfOk result (λ points. points ≡ map (λ x. x.point) (finite.values self.now)) }
    {
        let points = points_in(alloc, &self.vertices)?;
        Ok(List::from_vec(points))
    }
}

fn points_in(alloc: Global, vertices: &BTreeMap<Name, Vertex>) -> Result<Vec<Point>, AllocError>
    ensures points { IfOk result (λ points. points.items ≡ map (λ x. x.point) (values vertices.now)) }
    ensures ordered { IsOrdered nat_cmp vertices.now }
{
    vertices.values().map(|x| x.point).collect(alloc)
}
