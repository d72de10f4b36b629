//! What a simplification needs of a mesh.

ghost use Rattle.std.specs.Prelude.{◌≡◌, ℕ, Bool, true, ◌==◌, length, IfOk, OnOk};
ghost use Rattle.std.specs.List.{IsDistinct};
ghost use Rattle.oemm_octree.specs.declared.points.Point.{Point};
ghost use Rattle.mesh_data.specs.Edits.{is_held, whole_count};
ghost use Rattle.queued_simplify.specs.Errors.{ErrorMesh, CanCollapse, collapse_reply, contracted, price};
ghost use Rattle.queued_simplify.specs.Filled.{AreHeldAround};
ghost use Rattle.queued_simplify.specs.Served.{IsPair};
ghost use Rattle.queued_simplify.specs.Turns.{AreHeldNames};

use mesh_data::{Name, NameSet, Reply};
use std::alloc::{AllocError, Global};

/// A mesh of which an area is held, and whose vertices have errors. The cost of a collapse is the sum of the errors of
/// both vertices at the point that stays.
pub trait Simplifiable {
    /// The mesh with the errors of its vertices, as contracts see it.
    ghost seen: { Self → ErrorMesh };

    /// The test of the points that lie in the area.
    ghost inside: { Self → Point → Bool };

    /// What a collapse of a name onto another leaves.
    ghost collapsed: { Self → ℕ → ℕ → Self };

    /// The part that no collapse changes.
    ghost rest: { Self → Self };

    /// How many triangles have all three vertices held. A simplification asks for it at each step: keep the count.
    fn whole_count(&self) -> usize
        ensures { result ≡ whole_count (inside self.now) (seen self.now).mesh };

    /// The number of triangles.
    fn tri_count(&self) -> u32
        ensures { result ≡ length (seen self.now).mesh.tris };

    /// The held names.
    ///
    /// # Errors
    /// Want of memory.
    fn held(&self, alloc: Global) -> Result<NameSet, AllocError>
        ensures { IfOk result (λ names. AreHeldNames (inside self.now) (seen self.now).mesh names) };

    /// Puts the held names that share a triangle with a held name in place of what the list has, each once, in any
    /// order.
    ///
    /// # Errors
    /// Want of memory.
    fn held_around(&self, u: Name, names: &mut Vec<Name>) -> Result<(), AllocError>
        requires { is_held (inside self.now) (seen self.now).mesh u ≡ true }
        ensures around { OnOk result (AreHeldAround (inside self.now) (seen self.now).mesh u names.new.items) }
        ensures once { OnOk result (IsDistinct (λ x y. x == y) names.new.items) };

    /// What a collapse costs.
    fn cost(&self, u: Name, v: Name) -> i128
        requires { IsPair (inside self.now) (seen self.now).mesh u v }
        ensures { result ≡ price (seen self.now) u v };

    /// What a collapse answers that may cost at most so much.
    ///
    /// # Errors
    /// Want of memory.
    fn verdict(&self, alloc: Global, u: Name, v: Name, max: i128) -> Result<Reply, AllocError>
        ensures { IfOk result (λ reply. reply ≡ collapse_reply (inside self.now) (seen self.now) u v max) };

    /// Makes a collapse that can be made.
    ///
    /// # Errors
    /// Want of memory.
    fn collapse(&mut self, alloc: Global, u: Name, v: Name) -> Result<(), AllocError>
        requires { CanCollapse (inside self.old) (seen self.old) u v }
        ensures made { OnOk result (self.new ≡ collapsed self.old u v) }
        ensures rest { rest self.new ≡ rest self.old }
        ensures mesh { OnOk result (seen self.new ≡ contracted (seen self.old) u v) }
        ensures area { OnOk result (inside self.new ≡ inside self.old) };
}
