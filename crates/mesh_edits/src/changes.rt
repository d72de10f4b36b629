//! Edits of a fragment that are done. They take no memory.

ghost use Rattle.std.specs.Prelude.{◌≡◌, true};
ghost use Rattle.oemm_octree.specs.Octree.{is_inside};
ghost use Rattle.mesh_data.specs.Edits.{is_free};
ghost use Rattle.edit_steps.specs.Passed.{CollapsePassed, FlipPassed};
ghost use Rattle.patch_edits.specs.Edits.{collapsed_on, flipped_on, moved_on};
ghost use Rattle.patch_edits.specs.PatchMesh.{mesh_of};
ghost use Rattle.queued_simplify.specs.Errors.{contracted};
ghost use Rattle.mesh_edits.specs.Simplified.{seen_on};

use crate::fragment::Fragment;
use mesh_data::Name;
use oemm_octree::Point;

/// The triangles that a collapse takes away, those at its edge.
const TAKEN: u32 = 2;

impl Fragment {
    /// Puts a free vertex at another point of the area.
    pub(crate) fn do_move(&mut self, v: Name, to: Point)
        requires free { is_free (is_inside self.old.area) (mesh_of self.old.patch) v ≡ true }
        requires lands { is_inside self.old.area to ≡ true }
        ensures patch { self.new.patch ≡ moved_on self.old.patch v to }
        ensures area { self.new.area ≡ self.old.area }
    {
        self.vertices.set_point(v, to);
    }

    /// Collapses `u` onto `v`.
    pub(crate) fn do_collapse(&mut self, u: Name, v: Name)
        requires { CollapsePassed (is_inside self.old.area) (mesh_of self.old.patch) u v }
        ensures patch { self.new.patch ≡ collapsed_on self.old.patch u v }
        ensures seen { seen_on self.new.patch ≡ contracted (seen_on self.old.patch) u v }
        ensures area { self.new.area ≡ self.old.area }
    {
        self.halves.collapse(u, v);
        self.vertices.take_over(u, v);
        self.whole -= TAKEN;
    }

    /// Flips the edge of `a` and `b`.
    pub(crate) fn do_flip(&mut self, a: Name, b: Name)
        requires { FlipPassed (is_inside self.old.area) (mesh_of self.old.patch) a b }
        ensures patch { self.new.patch ≡ flipped_on self.old.patch a b }
        ensures area { self.new.area ≡ self.old.area }
    {
        self.halves.flip(a, b);
    }
}
