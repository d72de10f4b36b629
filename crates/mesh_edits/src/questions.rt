//! What the tables of verdicts ask of a fragment.

ghost use Rattle.std.specs.Prelude.{◌≡◌, ◌≢◌, ◌&&◌, ◌==◌, length, not};
ghost use Rattle.mesh_data.specs.Manifold.{is_corner};
ghost use Rattle.mesh_sheets.specs.Assembled.{has_name};
ghost use Rattle.patch_edits.specs.PatchMesh.{cost_on, mesh_of};
ghost use Rattle.mesh_edits.specs.Rounds.{shared_in};

use crate::fragment::Fragment;
use crate::rounds::{first_folding, path_of, round};
use half_edge::Ring;
use link_test::{Link, verdict};
use mesh_data::{Name, Tri};
use mesh_verdicts::MeshView;
use oemm_octree::Point;
use oemm_plane::QuadSums;
use std::alloc::{AllocError, Global};

/// The number of names of the shortest closed ring.
const FEWEST: usize = 3;

/// The name that violates the link condition, if there is one.
fn shared_in(link: &Link) -> Option<Name>
    ensures { result ≡ shared_in link.now }
{
    match link {
        Link::Shared(w) => Some(*w),
        _ => None,
    }
}

/// Whether the ring is a closed one of three names.
fn is_three(ring: &Ring) -> bool
    ensures { result ≡ (ring.now.closed && length ring.now.names == 3) }
{
    ring.closed && ring.names.slice().len() == FEWEST
}

impl Fragment {
    /// Whether the name has a vertex that is in no triangle.
    fn is_alone(&self, v: Name) -> bool
        ensures { result
            ≡ (has_name self.now.patch.vertices v && not (is_corner (mesh_of self.now.patch).tris v)) }
    {
        if !self.vertices.has(v) {
            return false;
        }
        !self.halves.has(v)
    }

    /// What it costs to collapse `u` onto `v`: the squared distances of `v` from the planes of both, each weighted by
    /// four times the squared area of its triangle (Garland and Heckbert, 1997).
    pub(crate) fn price(&self, u: Name, v: Name) -> i128
        requires { u ≢ v }
        ensures { result ≡ cost_on self.now.patch u v }
    {
        let mut quad = self.vertices.quad_of(u);
        quad.merge(&self.vertices.quad_of(v));
        quad.value_at(&self.vertices.place_of(v))
    }
}

impl MeshView for Fragment {
    ghost use Rattle.oemm_octree.specs.Octree.{is_inside};
    ghost use Rattle.patch_edits.specs.PatchMesh.{cost_on, mesh_of};

    ghost inside = { λ f. is_inside f.area };

    ghost mesh = { λ f. mesh_of f.patch };

    ghost price = { λ f. cost_on f.patch };

    fn holds(&self, p: &Point) -> bool {
        self.area.holds(p)
    }

    fn is_held(&self, v: Name) -> bool {
        self.vertices.has(v)
    }

    fn is_free(&self, v: Name) -> bool {
        !self.rim.has(v)
    }

    fn are_neighbours(&self, u: Name, v: Name) -> bool {
        if self.is_alone(u) {
            return false;
        }
        if self.is_alone(v) {
            return false;
        }
        if u == v {
            return true;
        }
        let (ahead, behind) = self.halves.apexes(u, v);
        ahead.is_some() || behind.is_some()
    }

    fn has_closed_ring(&self, alloc: Global, v: Name) -> Result<bool, AllocError> {
        if !self.halves.has(v) {
            return Ok(false);
        }
        Ok(!self.halves.is_border(v))
    }

    fn link_violation(&self, alloc: Global, u: Name, v: Name) -> Result<Option<Name>, AllocError> {
        let of_u = self.halves.ring(alloc, u)?;
        let of_v = self.halves.ring(alloc, v)?;
        let link = verdict(of_u.names.slice(), of_v.names.slice(), of_v.closed, u, v);
        Ok(shared_in(&link))
    }

    fn is_closed_by_three(&self, alloc: Global, v: Name) -> Result<bool, AllocError> {
        if !self.halves.has(v) {
            return Ok(false);
        }
        let ring = self.halves.ring(alloc, v)?;
        Ok(is_three(&ring))
    }

    fn first_folding(&self, alloc: Global, u: Name, v: Name) -> Result<Option<Tri>, AllocError> {
        let ring = self.halves.ring(alloc, u)?;
        let path = path_of(alloc, &ring)?;
        let mut tris = round(alloc, u, path.as_slice())?;
        tris.sort_unstable();
        Ok(first_folding(&self.vertices, tris.as_slice(), u, v))
    }

    fn cost(&self, u: Name, v: Name) -> i128 {
        self.price(u, v)
    }

    fn opposites(&self, a: Name, b: Name) -> Option<(Name, Name)> {
        let (ahead, behind) = self.halves.apexes(a, b);
        ahead.zip(behind)
    }
}
