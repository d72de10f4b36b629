//! What the tables of verdicts ask of a mesh and an area.

ghost use Rattle.std.specs.Prelude.{◌≡◌, ◌≢◌, ℕ, ℤ, Bool, true, IfOk};
ghost use Rattle.std.specs.List.{find};
ghost use Rattle.oemm_octree.specs.declared.points.Point.{Point};
ghost use Rattle.mesh_data.specs.Edits.{folds_with, is_free, is_held};
ghost use Rattle.mesh_data.specs.Links.{are_neighbours, is_closed_by_three, link_violation, opposites};
ghost use Rattle.mesh_data.specs.Mesh.{Mesh};
ghost use Rattle.mesh_data.specs.Rings.{has_closed_ring};
ghost use Rattle.edit_steps.specs.Passed.{PairPassed};

use mesh_data::{Name, Tri};
use oemm_octree::Point;
use std::alloc::{AllocError, Global};

/// A mesh and an area, by the questions that the tables of verdicts ask. A question is asked only where the lines
/// before it don't apply, so its answer may rest on them.
pub trait MeshView {
    /// The points of the area.
    ghost inside: { Self → Point → Bool };

    /// The mesh.
    ghost mesh: { Self → Mesh };

    /// What a collapse of a name onto another costs.
    ghost price: { Self → ℕ → ℕ → ℤ };

    /// Whether the point lies in the area.
    fn holds(&self, p: &Point) -> bool
        ensures { result ≡ inside self.now p.now };

    /// Whether the mesh has the vertex, in the area.
    fn is_held(&self, v: Name) -> bool
        ensures { result ≡ is_held (inside self.now) (mesh self.now) v };

    /// Whether the held vertex and all its neighbours are held.
    fn is_free(&self, v: Name) -> bool
        requires { is_held (inside self.now) (mesh self.now) v ≡ true }
        ensures { result ≡ is_free (inside self.now) (mesh self.now) v };

    /// Whether some triangle has both names, the first of which is held.
    fn are_neighbours(&self, u: Name, v: Name) -> bool
        requires { is_held (inside self.now) (mesh self.now) u ≡ true }
        ensures { result ≡ are_neighbours (mesh self.now).tris u v };

    /// Whether the held vertex has a closed ring.
    ///
    /// # Errors
    /// Want of memory.
    fn has_closed_ring(&self, alloc: Global, v: Name) -> Result<bool, AllocError>
        requires { is_held (inside self.now) (mesh self.now) v ≡ true }
        ensures { IfOk result (λ b. b ≡ has_closed_ring (mesh self.now).tris v) };

    /// The least neighbour of both ends of an edge that doesn't lie opposite of it, where the first has a closed ring.
    ///
    /// # Errors
    /// Want of memory.
    fn link_violation(&self, alloc: Global, u: Name, v: Name) -> Result<Option<Name>, AllocError>
        requires pair { PairPassed (inside self.now) (mesh self.now) u v }
        requires closed { has_closed_ring (mesh self.now).tris u ≡ true }
        ensures { IfOk result (λ w. w ≡ link_violation (mesh self.now).tris u v) };

    /// Whether the held vertex has a closed ring of three names.
    ///
    /// # Errors
    /// Want of memory.
    fn is_closed_by_three(&self, alloc: Global, v: Name) -> Result<bool, AllocError>
        requires { is_held (inside self.now) (mesh self.now) v ≡ true }
        ensures { IfOk result (λ b. b ≡ is_closed_by_three (mesh self.now).tris v) };

    /// The first triangle at `u` without `v` that folds where `v` is put for `u`.
    ///
    /// # Errors
    /// Want of memory.
    fn first_folding(&self, alloc: Global, u: Name, v: Name) -> Result<Option<Tri>, AllocError>
        requires { PairPassed (inside self.now) (mesh self.now) u v }
        ensures { IfOk result (λ t. t ≡ find (folds_with (mesh self.now) u v) (mesh self.now).tris) };

    /// What it costs to collapse `u` onto `v`, two different held vertices.
    fn cost(&self, u: Name, v: Name) -> i128
        requires differ { u ≢ v }
        requires u_held { is_held (inside self.now) (mesh self.now) u ≡ true }
        requires v_held { is_held (inside self.now) (mesh self.now) v ≡ true }
        ensures { result ≡ price self.now u v };

    /// The names that lie opposite of an edge, if it has a triangle in both directions.
    fn opposites(&self, a: Name, b: Name) -> Option<(Name, Name)>
        requires { PairPassed (inside self.now) (mesh self.now) a b }
        ensures { result ≡ opposites (mesh self.now).tris a b };
}
