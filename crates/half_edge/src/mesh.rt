//! Meshes of half-edges.

ghost use Rattle.std.specs.Prelude.{◌≡◌, ◌&&◌, ◌==◌, ℕ, IfErr, IfOk, None, Some, map, not, true};
ghost use Rattle.std.specs.List.{All, flat_map};
ghost use Rattle.oemm_lists.specs.Ascending.{in_order};
ghost use Rattle.mesh_data.specs.Edits.{collapsed_tris, flipped_tris};
ghost use Rattle.mesh_data.specs.Links.{apex, opposites};
ghost use Rattle.mesh_data.specs.Manifold.{IsEachEdgeOnce, is_corner};
ghost use Rattle.mesh_data.specs.RingChanges.{IsOriented, MayCollapse};
ghost use Rattle.mesh_data.specs.Rings.{IsRing, has_closed_ring};
ghost use Rattle.mesh_data.specs.Triangles.{IsProper, tri_cmp, turned};
ghost use Rattle.triangle_lists.specs.HeldAudit.{AreHeldRinged, FindsHeldShape};
ghost use Rattle.oemm_lists.specs.Numbers.{among};
ghost use Rattle.half_edge.specs.Faults.{TellsFault};
ghost use Rattle.half_edge.specs.Flips.{MayTurn};
ghost use Rattle.half_edge.specs.Halves.{led_face};
ghost use Rattle.half_edge.specs.Meshes.{is_held};

use crate::build::build;
use crate::edges::apex_from;
use crate::edits::{collapse_parts, flip_parts};
use crate::fault::HalfFault;
use crate::outs::{out_at, outs_of};
use crate::ring::{Ring, RingNames};
use crate::rounds::{first_round, names_round};
use crate::surgery::Half;
use mesh_data::{Name, NameSet, Tri, Tris};
use oemm_lists::{Copied, List};
use slab::Slab;
use std::alloc::{AllocError, Global};
use std::collections::BTreeMap;
use std::marker::Model;
use triangle_lists::{first_held_fault, turned_tri};

/// Triangles as half-edges: each half-edge has its triangle, the next one in it and its twin, and each held name that
/// is in a triangle has a half-edge from it (Mäntylä, "An introduction to solid modeling", 1988). Contracts see the
/// list of the triangles, turned and in order, and the held names in them.
#[derive(Drop)]
pub struct HalfMesh {
    halves: Slab<Half>,
    outs: BTreeMap<Name, usize>,
}

impl Model for HalfMesh {
    ghost use Rattle.std.specs.BTreeMap.{keys};
    ghost use Rattle.half_edge.specs.Halves.{faces_of};
    ghost use Rattle.half_edge.specs.Meshes.{Faced, faced_code, IsMesh};

    ghost Value = { Faced };

    ghost coded = { faced_code };

    ghost view = { λ m. record { tris = faces_of m.halves.slots; held = keys m.outs } };

    ghost invariant = { λ m. IsMesh m.halves.slots m.outs };
}

/// The triangles, each once and turned.
fn led_faces(alloc: Global, halves: &Slab<Half>) -> Result<Vec<Tri>, AllocError>
    ensures { IfOk result (λ ts. ts.items ≡ map turned (flat_map led_face halves.now.slots)) }
{
    let mut faces = Vec::new(alloc);
    for k in 0..halves.capacity() {
        if let Some(half) = halves.get(k) {
            if half.lead {
                faces.push(turned_tri(&half.face))?;
            }
        }
    }
    Ok(faces)
}

/// The half-edges of good triangles.
fn good_mesh(alloc: Global, faces: &[Tri], held: &NameSet) -> Result<HalfMesh, AllocError>
    requires proper { All IsProper faces.now }
    requires once { IsEachEdgeOnce faces.now }
    requires ringed { AreHeldRinged faces.now held.now }
    ensures tris { IfOk result (λ m. m.tris ≡ in_order tri_cmp (map turned faces.now)) }
    ensures held { IfOk result (λ m. (v : ℕ) → is_held m v ≡ (among v held.now && is_corner faces.now v)) }
{
    let (halves, _) = build(alloc, faces)?;
    let outs = outs_of(alloc, &halves, held)?;
    Ok(HalfMesh { halves, outs })
}

impl HalfMesh {
    /// The half-edges of these triangles, each of three different names, for these held names. It takes time of about
    /// (F + H) log F for F triangles and H held names.
    ///
    /// # Errors
    /// `Bad` where two triangles have a directed edge, with the least, or else where a held name that is in a triangle
    /// has no ring in them, with the least; want of memory.
    pub fn of_faces(alloc: Global, faces: &[Tri], held: &NameSet) -> Result<HalfMesh, HalfFault>
        requires { All IsProper faces.now }
        ensures good { IfOk result (λ m. FindsHeldShape faces.now held.now None) }
        ensures tris { IfOk result (λ m. m.tris ≡ in_order tri_cmp (map turned faces.now)) }
        ensures held { IfOk result (λ m. (v : ℕ) → is_held m v ≡ (among v held.now && is_corner faces.now v)) }
        ensures bad { IfErr result (TellsFault faces.now held.now) }
    {
        match first_held_fault(alloc, faces, held)? {
            Some(shape) => Err(HalfFault::Bad(shape)),
            None => Ok(good_mesh(alloc, faces, held)?),
        }
    }

    /// Whether the name is held and in a triangle. It takes no memory.
    pub fn has(&self, v: Name) -> bool
        ensures has { result ≡ is_held self.now v }
        ensures corner { result ≡ true → is_corner self.now.tris v ≡ true }
    {
        out_at(&self.outs, v).is_some()
    }

    /// The ring of a name that is held and in a triangle, and that no directed edge is in two triangles. It takes time
    /// of about the number of triangles at the name.
    ///
    /// # Errors
    /// Want of memory.
    pub fn ring(&self, alloc: Global, v: Name) -> Result<Ring, AllocError>
        requires { is_held self.now v ≡ true }
        ensures ring { IfOk result (λ r. IsRing self.now.tris v (record { names = r.names; closed = r.closed })) }
        ensures oriented { IfOk result (λ r. IsOriented self.now.tris) }
    {
        let home = out_at(&self.outs, v).unwrap_or(0);
        let (first, closed) = first_round(&self.halves, home, v);
        let names = names_round(alloc, &self.halves, first, closed, v)?;
        Ok(Ring {
            names: RingNames { names },
            closed,
        })
    }

    /// The triangles, turned and in order. It takes time of about F log F for F triangles.
    ///
    /// # Errors
    /// Want of memory.
    pub fn faces(&self, alloc: Global) -> Result<Tris, AllocError>
        ensures { IfOk result (λ ts. ts ≡ self.now.tris) }
    {
        let mut faces = led_faces(alloc, &self.halves)?;
        faces.sort_unstable();
        Ok(List::from_vec(faces))
    }

    /// Whether the ring of a name that is held and in a triangle is open. It takes no memory, and time of about the
    /// number of triangles at the name.
    pub fn is_border(&self, v: Name) -> bool
        requires { is_held self.now v ≡ true }
        ensures { result ≡ not (has_closed_ring self.now.tris v) }
    {
        let home = out_at(&self.outs, v).unwrap_or(0);
        let (_, closed) = first_round(&self.halves, home, v);
        !closed
    }

    /// The third names of the triangles with the edge from a to b and with that from b to a. It takes no memory, and
    /// time of about the number of triangles at both where both are held and in a triangle; else it looks at all
    /// triangles.
    pub fn apexes(&self, a: Name, b: Name) -> (Option<Name>, Option<Name>)
        ensures ahead { result.0 ≡ apex self.now.tris a b }
        ensures behind { result.1 ≡ apex self.now.tris b a }
    {
        let ahead = apex_from(&self.halves, out_at(&self.outs, a), a, b);
        let behind = apex_from(&self.halves, out_at(&self.outs, b), b, a);
        (ahead, behind)
    }

    /// Collapses u onto v. It takes no memory, and time of about the number of triangles at both.
    pub fn collapse(&mut self, u: Name, v: Name)
        requires u_held { is_held self.old u ≡ true }
        requires v_held { is_held self.old v ≡ true }
        requires may { MayCollapse self.old.tris u v }
        ensures faces { self.new.tris ≡ collapsed_tris u v self.old.tris }
        ensures held { (w : ℕ) → is_held self.new w ≡ (is_held self.old w && not (w == u)) }
    {
        collapse_parts(&mut self.halves, &mut self.outs, u, v);
    }

    /// Flips the edge of a and b. It takes no memory, and time of about the number of triangles at a.
    pub fn flip(&mut self, a: Name, b: Name)
        requires a_held { is_held self.old a ≡ true }
        requires b_held { is_held self.old b ≡ true }
        requires may { MayTurn self.old.tris a b }
        ensures faces { (c d : ℕ) → opposites self.old.tris a b ≡ Some (c, d)
            → self.new.tris ≡ flipped_tris a b c d self.old.tris }
        ensures held { self.new.held ≡ self.old.held }
    {
        flip_parts(&mut self.halves, &mut self.outs, a, b);
    }
}

impl Copied for HalfMesh {
    /// An equal mesh. It takes time and memory of about the size of the mesh.
    ///
    /// # Errors
    /// Want of memory.
    fn copy(&self, _alloc: Global) -> Result<HalfMesh, AllocError> {
        Ok(HalfMesh {
            halves: self.halves.clone()?,
            outs: self.outs.clone()?,
        })
    }
}
