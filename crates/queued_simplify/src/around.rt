//! The names near a collapse.

ghost use Rattle.std.specs.Prelude.{◌≡◌, ◌||◌, ◌++◌, ℕ, true, OnOk};
ghost use Rattle.std.specs.List.Sorted.{IsStrictlyIncreasing};
ghost use Rattle.oemm_lists.specs.Numbers.{among};
ghost use Rattle.mesh_data.specs.Edits.{is_held};
ghost use Rattle.queued_simplify.specs.Turns.{IsAround, chosen, is_refused};

use crate::mesh::Simplifiable;
use collapse_queue::Stamps;
use mesh_data::Name;
use std::alloc::AllocError;

/// Whether all names are taken, or a collapse of this one was refused since it was stamped.
fn is_chosen(all: bool, refused: &Stamps, u: Name) -> bool
    ensures { result ≡ (all || is_refused refused.now u) }
{
    all || refused.get(u) != 0
}

/// Adds these names, or those of which a collapse was refused.
fn push_chosen(
    names: &mut Vec<Name>,
    near: &[Name],
    all: bool,
    refused: &Stamps,
) -> Result<(), AllocError>
    ensures { OnOk result (names.new.items ≡ names.old.items ++ chosen all refused.now near.now) }
{
    for name in near {
        if is_chosen(all, refused, *name) {
            names.push(*name)?;
        }
    }
    Ok(())
}

/// Puts the names of the ring in place of what the list has, with those next to `v`, and with those next to the others
/// of which a collapse was refused: as often as they come.
fn gather<M: Simplifiable>(
    mesh: &M,
    v: Name,
    ring: &[Name],
    refused: &Stamps,
    near: &mut Vec<Name>,
    names: &mut Vec<Name>,
) -> Result<(), AllocError>
    requires { (y : ℕ) → among y ring.now ≡ true → is_held (M.inside mesh.now) (M.seen mesh.now).mesh y ≡ true }
    ensures { OnOk result
        (IsAround (M.inside mesh.now) (M.seen mesh.now).mesh v ring.now refused.now names.new.items) }
{
    names.clear();
    for name in ring {
        mesh.held_around(*name, near)?;
        names.push(*name)?;
        push_chosen(names, near, *name == v, refused)?;
    }
    Ok(())
}

/// Puts the names of the ring in place of what the list has, with those next to `v`, and with those next to the others
/// of which a collapse was refused: each once, ascending.
pub(crate) fn names_around<M: Simplifiable>(
    mesh: &M,
    v: Name,
    ring: &[Name],
    refused: &Stamps,
    near: &mut Vec<Name>,
    names: &mut Vec<Name>,
) -> Result<(), AllocError>
    requires { (y : ℕ) → among y ring.now ≡ true → is_held (M.inside mesh.now) (M.seen mesh.now).mesh y ≡ true }
    ensures around { OnOk result
        (IsAround (M.inside mesh.now) (M.seen mesh.now).mesh v ring.now refused.now names.new.items) }
    ensures once { OnOk result (IsStrictlyIncreasing names.new.items) }
{
    gather(mesh, v, ring, refused, near, names)?;
    names.sort_unstable();
    names.dedup();
    Ok(())
}
