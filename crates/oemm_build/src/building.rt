//! A store that is built.

ghost use Rattle.std.specs.Prelude.{◌≡◌, ◌≤◌, ℕ, List, length, None, Some, IfErr, IfOk, OnErr, OnOk};
ghost use Rattle.fault_counts.specs.Counts.{TellsFailure};
ghost use Rattle.oemm_limits.specs.declared.TheConstants.{MOST_CAP, MOST_CORE, MOST_LEAVES};
ghost use Rattle.mesh_data.specs.declared.geometry.Soup.{Soup};
ghost use Rattle.mesh_soup.specs.Soup.{IsAtStart};
ghost use Rattle.mesh_soup.specs.Taken.{HasTaken};
ghost use Rattle.oemm_blobs.specs.Content.{Content, blob_at};
ghost use Rattle.oemm_blobs.specs.Store.{CountsOne, IfTold, IsCalmWith, Keeps};
ghost use Rattle.oemm_blobs.specs.declared.keys.Key.TheVariants as key;
ghost use Rattle.stored_mesh.specs.Stored.{Base};
ghost use Rattle.oemm_build.specs.Building.{IsBuiltFrom, LeavesBuild, numbers_of};
ghost use Rattle.oemm_build.specs.Faults.{FindsIndex, IsAlreadyBuilt, IsBeforePuts, IsOfIndex, fault_of_items};
ghost use Rattle.oemm_build.specs.Items.{IsBaseOf, IsPlanOf, IsRead, ShowsFault};
ghost use Rattle.oemm_build.specs.Laying.{IsSameButSheets, LeavesSo, TellsStill};

use crate::fault::BuildFault;
use crate::laying::lay_plan;
use crate::planning::{Plan, read_plan};
use mesh_items::{Items, MeshFault};
use oemm_blobs::{Blobs, Key};
use oemm_shelf::ShelfFault;
use sheet_data::IndexSheet;
use std::alloc::Global;

/// What a store was built of: the numbers of vertices and faces, the Euler characteristic, the number of directed border
/// edges, and how many leaves there are.
#[derive(Clone, Copy, Debug, PartialEq, Eq)]
pub struct Built {
    pub vertices: u32,
    pub faces: u32,
    pub euler: i32,
    pub border: u32,
    pub leaves: u32,
}

/// The numbers of an index.
fn numbers_of(index: &IndexSheet) -> Built
    requires { length index.now.cells ≤ MOST_LEAVES }
    ensures { result ≡ numbers_of index.now }
{
    Built {
        vertices: index.vertices,
        faces: index.faces,
        euler: index.euler,
        border: index.border,
        leaves: index.cells.len() as u32,
    }
}

/// That the store has no index.
///
/// # Errors
/// `AlreadyBuilt` where it has one, `Shelf` where the store fails, and `Memory`.
fn want_no_index<B: Blobs>(alloc: Global, blobs: &mut B) -> Result<(), BuildFault>
    ensures index { IfTold (B.store blobs.old).content (λ m. FindsIndex result (blob_at m key.Index)) }
    ensures fault { IfErr result IsOfIndex }
    ensures keeps { Keeps (B.store blobs.old) (B.store blobs.new) }
    ensures gets { CountsOne (B.store blobs.old).gets (B.store blobs.new).gets }
    ensures puts { (B.store blobs.new).puts ≡ (B.store blobs.old).puts }
    ensures cause { TellsFailure (BuildFault.Shelf ShelfFault.Store)
        (B.store blobs.old).faults (B.store blobs.new).faults result }
{
    match blobs.get(alloc, Key::Index)? {
        Some(_) => Err(BuildFault::AlreadyBuilt),
        None => Ok(()),
    }
}

/// The plan of all points and faces of a reader, where the store has no index. Nothing is put.
///
/// # Errors
/// Those of `build`.
fn plan_build<I: Items, B: Blobs>(
    alloc: Global,
    items: &mut I,
    blobs: &mut B,
    cap: u32,
    core: u32,
) -> Result<Plan, BuildFault>
    requires start { IsAtStart (I.given items.old) }
    requires least_cap { 1 ≤ cap }
    requires most_cap { cap ≤ MOST_CAP }
    requires least_core { 1 ≤ core }
    requires most_core { core ≤ MOST_CORE }
    ensures planned { IfOk result (λ plan. (s : Soup) × IsRead (I.reading items.old) (I.given items.new) s
        × IsPlanOf cap core s plan) }
    ensures index { IfTold (B.store blobs.old).content (λ m. FindsIndex result (blob_at m key.Index)) }
    ensures unread { IsAlreadyBuilt result → items.new ≡ items.old }
    ensures shows { IfErr result (ShowsFault (I.reading items.old) (I.given items.new)) }
    ensures fault { (I.given items.old).fault ≡ None → fault_of_items result ≡ (I.given items.new).fault }
    ensures read { (I.given items.old).fault ≡ None
        → TellsFailure (BuildFault.Mesh MeshFault.Read) (I.faults items.old) (I.faults items.new) result }
    ensures taken { HasTaken (I.left items.old) (I.left items.new) }
    ensures keeps { Keeps (B.store blobs.old) (B.store blobs.new) }
    ensures gets { CountsOne (B.store blobs.old).gets (B.store blobs.new).gets }
    ensures puts { (B.store blobs.new).puts ≡ (B.store blobs.old).puts }
    ensures cause { TellsFailure (BuildFault.Shelf ShelfFault.Store)
        (B.store blobs.old).faults (B.store blobs.new).faults result }
{
    want_no_index(alloc, blobs)?;
    read_plan(alloc, items, cap, core)
}

/// Builds a store from the points and faces of a reader that has given no item yet: the index is got first; all items are
/// read and audited; then the sheet of each leaf is put in version 0, and the index last. A leaf has at most `cap` vertices
/// where it can be split further, and a task may check out at most `core` leaves.
///
/// It takes time of about n log n for n vertices and faces, and room for about 100 bytes a vertex or face.
///
/// # Errors
/// `AlreadyBuilt` where there is an index; `Mesh` with the fault that the items answer; `Shape` with what the audit of
/// the items finds; `Shelf` where the store fails; and `Memory`. The store then has no index but the one that it had, and
/// a later build may begin anew. The store is handed back.
pub fn build<I: Items, B: Blobs>(
    alloc: Global,
    items: &mut I,
    mut blobs: B,
    cap: u32,
    core: u32,
) -> (B, Result<Built, BuildFault>)
    requires start { IsAtStart (I.given items.old) }
    requires least_cap { 1 ≤ cap }
    requires most_cap { cap ≤ MOST_CAP }
    requires least_core { 1 ≤ core }
    requires most_core { core ≤ MOST_CORE }
    // Which fault comes when.
    ensures index { IfTold (B.store blobs).content (λ m. FindsIndex result.1 (blob_at m key.Index)) }
    ensures unread { IsAlreadyBuilt result.1 → items.new ≡ items.old }
    ensures shows { IfErr result.1 (ShowsFault (I.reading items.old) (I.given items.new)) }
    ensures fault { (I.given items.old).fault ≡ None → fault_of_items result.1 ≡ (I.given items.new).fault }
    ensures read { (I.given items.old).fault ≡ None
        → TellsFailure (BuildFault.Mesh MeshFault.Read) (I.faults items.old) (I.faults items.new) result.1 }
    ensures taken { HasTaken (I.left items.old) (I.left items.new) }
    ensures gets { CountsOne (B.store blobs).gets (B.store result.0).gets }
    ensures cause { TellsFailure (BuildFault.Shelf ShelfFault.Store)
        (B.store blobs).faults (B.store result.0).faults result.1 }
    // What the store is left with.
    ensures built { IfOk result.1 (λ built. (b : Base) × IsBaseOf (I.reading items.old) (I.given items.new) cap core b
        × (built ≡ numbers_of b.index) × TellsStill (IsBuiltFrom b) (B.store blobs) (B.store result.0)) }
    ensures early { IsBeforePuts result.1 → Keeps (B.store blobs) (B.store result.0) }
    ensures no_put { IsBeforePuts result.1 → (B.store result.0).puts ≡ (B.store blobs).puts }
    ensures already { (content : Content) (bytes : List ℕ) → (B.store blobs).content ≡ Some content
        → blob_at content key.Index ≡ Some bytes → Keeps (B.store blobs) (B.store result.0) }
    ensures refused { OnErr result.1 (TellsStill (IsSameButSheets MOST_LEAVES) (B.store blobs) (B.store result.0)) }
    ensures crash { LeavesSo (LeavesBuild (IsBaseOf (I.reading items.old) (I.given items.new) cap core))
        (B.store blobs) (B.store result.0) }
    ensures calm { OnOk result.1 ((content : Content) → IsCalmWith (B.store blobs) content
        → (left : Content) × IsCalmWith (B.store result.0) left) }
{
    let plan = match plan_build(alloc, items, &mut blobs, cap, core) {
        Ok(plan) => plan,
        Err(fault) => return (blobs, Err(fault)),
    };
    let built = numbers_of(&plan.index);
    match lay_plan(alloc, blobs, plan) {
        (blobs, Ok(())) => (blobs, Ok(built)),
        (blobs, Err(fault)) => (blobs, Err(fault)),
    }
}
