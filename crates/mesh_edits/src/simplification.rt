//! Simplification of a fragment, by a queue of collapses.

ghost use Rattle.std.specs.Prelude.{◌≡◌, ◌++◌, filter, length, IfOk, OnErr, OnOk};
ghost use Rattle.oemm_octree.specs.Octree.{is_inside};
ghost use Rattle.mesh_data.specs.declared.edits.Edit.TheVariants.{Simplify};
ghost use Rattle.mesh_sheets.specs.Assembled.{has_name};
ghost use Rattle.patch_edits.specs.Edits.{after_on, verdict_on};

use crate::fragment::Fragment;
use crate::made::names_of;
use crate::vertices::PatchVertices;
use mesh_data::{Name, NameSet, Reply};
use mesh_verdicts::collapse_reply;
use oemm_lists::List;
use queued_simplify::{Simplifiable, simplify};
use std::alloc::{AllocError, Global};

/// Adds those of the names that have a vertex.
fn push_held(
    vertices: &PatchVertices,
    near: &[Name],
    names: &mut Vec<Name>,
) -> Result<(), AllocError>
    ensures { OnOk result (names.new.items ≡ names.old.items ++ filter (has_name vertices.now) near.now) }
{
    for name in near {
        if vertices.has(*name) {
            names.push(*name)?;
        }
    }
    Ok(())
}

impl Simplifiable for Fragment {
    ghost use Rattle.oemm_octree.specs.Octree.{is_inside};
    ghost use Rattle.mesh_edits.specs.Simplified.{collapsed_in, kept_of, seen_on};

    ghost seen = { λ f. seen_on f.patch };

    ghost inside = { λ f. is_inside f.area };

    ghost collapsed = { collapsed_in };

    ghost rest = { kept_of };

    fn whole_count(&self) -> usize {
        self.whole as usize
    }

    fn tri_count(&self) -> u32 {
        self.whole + self.mixed.slice().len() as u32
    }

    fn held(&self, alloc: Global) -> Result<NameSet, AllocError> {
        let listed = self.vertices.to_list(alloc)?;
        let names = names_of(alloc, listed.slice())?;
        Ok(NameSet::of(List::from_vec(names)))
    }

    fn held_around(&self, u: Name, names: &mut Vec<Name>) -> Result<(), AllocError> {
        names.clear();
        if !self.halves.has(u) {
            return Ok(());
        }
        let ring = self.halves.ring(*names.allocator(), u)?;
        push_held(&self.vertices, ring.names.slice(), names)
    }

    fn cost(&self, u: Name, v: Name) -> i128 {
        self.price(u, v)
    }

    fn verdict(&self, alloc: Global, u: Name, v: Name, max: i128) -> Result<Reply, AllocError> {
        collapse_reply(self, alloc, u, v, max)
    }

    fn collapse(&mut self, alloc: Global, u: Name, v: Name) -> Result<(), AllocError> {
        self.do_collapse(u, v);
        Ok(())
    }
}

impl Fragment {
    /// How many triangles have three vertices.
    fn whole_left(&self) -> u32
        ensures { result ≡ length self.now.patch.whole }
    {
        self.whole
    }

    /// Answers a simplification, and makes it. For want of memory what was changed is put back.
    pub(crate) fn edit_simplify(
        &mut self,
        alloc: Global,
        max: i128,
        target: u32,
    ) -> Result<Reply, AllocError>
        ensures reply { IfOk result
            (λ r. r ≡ verdict_on (is_inside self.old.area) self.old.patch (Simplify max target)) }
        ensures patch { IfOk result (λ r. self.new.patch ≡ after_on self.old.patch (Simplify max target) r) }
        ensures area { self.new.area ≡ self.old.area }
        ensures err { OnErr result (self.new ≡ self.old) }
    {
        let parts = self.parts(alloc)?;
        match simplify(self, alloc, max, target) {
            Ok(steps) => Ok(Reply::Simplified {
                steps,
                left: self.whole_left(),
            }),
            Err(refused) => {
                self.put_back(parts);
                Err(refused)
            }
        }
    }
}
