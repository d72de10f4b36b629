//! What is to be put into a store, by the points and faces of a reader.

ghost use Rattle.std.specs.Prelude.{◌≡◌, ◌≤◌, length, None, All, IfErr, IfOk, IfSome, OnOk};
ghost use Rattle.fault_counts.specs.Counts.{TellsFailure};
ghost use Rattle.oemm_limits.specs.declared.TheConstants.{MOST_CAP, MOST_CORE, MOST_ITEMS};
ghost use Rattle.oemm_octree.specs.Leaves.{leaves};
ghost use Rattle.oemm_octree.specs.Octree.{IsOnGrid};
ghost use Rattle.mesh_data.specs.declared.geometry.Soup.{Soup};
ghost use Rattle.mesh_soup.specs.Soup.{IsAtStart, IsSoup};
ghost use Rattle.mesh_soup.specs.Taken.{HasTaken};
ghost use Rattle.oemm_build.specs.Faults.{IsOfItems, fault_of_items};
ghost use Rattle.oemm_build.specs.Items.{IsOfSoup, IsPlanOf, IsRead, ShowsFault};

use crate::fault::BuildFault;
use face_audit::audit_faces;
use mesh_cutting::MeshCut;
use mesh_data::{Audit, Soup};
use mesh_items::{Items, MeshFault};
use mesh_soup::read_soup;
use oemm_limits::MOST_ITEMS;
use oemm_lists::Copied;
use oemm_octree::{Cells, Counts, Point};
use sheet_data::IndexSheet;
use std::alloc::{AllocError, Global};

/// The index that is to be put, and the mesh whose sheets are.
#[derive(Drop)]
pub struct Plan {
    pub index: IndexSheet,
    pub cut: MeshCut,
}

/// The leaves over the points.
fn leaves_over(alloc: Global, points: &[Point], cap: u32) -> Result<Cells, AllocError>
    requires { length points.now ≤ MOST_ITEMS }
    ensures leaves { IfOk result (λ cells. cells ≡ leaves points.now cap) }
    ensures grid { OnOk result (All IsOnGrid points.now) }
{
    let mut counts = Counts::new(alloc)?;
    for p in points {
        counts.add(*p);
    }
    counts.leaves(alloc, cap)
}

/// The plan of points and faces whose audit is good.
///
/// # Errors
/// `Shape` with what the audit finds, and `Memory`.
fn plan_of(alloc: Global, soup: Soup, cap: u32, core: u32) -> Result<Plan, BuildFault>
    requires soup { IsSoup MOST_ITEMS soup }
    requires least_cap { 1 ≤ cap }
    requires most_cap { cap ≤ MOST_CAP }
    requires least_core { 1 ≤ core }
    requires most_core { core ≤ MOST_CORE }
    ensures planned { IfOk result (IsPlanOf cap core soup) }
    ensures shape { IfErr result (IsOfSoup soup) }
{
    let Soup { points, faces } = soup;
    let cells = leaves_over(alloc, points.slice(), cap)?;
    let cut = MeshCut::of(alloc, cells.copy(alloc)?, points, faces)?;
    let audit = audit_faces(alloc, cut.points().len() as u32, cut.tris())?;
    match audit {
        Audit::Bad(shape) => Err(BuildFault::Shape(shape)),
        Audit::Good {
            vertices,
            faces,
            euler,
            border,
        } => Ok(Plan {
            index: IndexSheet {
                cap,
                core,
                vertices,
                faces,
                euler,
                border,
                cells,
            },
            cut,
        }),
    }
}

/// The plan of all points and faces of a reader that has given no item yet.
///
/// # Errors
/// `Mesh` with the fault that the items answer, `Shape` with what their audit finds, and `Memory`.
pub fn read_plan<I: Items>(
    alloc: Global,
    items: &mut I,
    cap: u32,
    core: u32,
) -> Result<Plan, BuildFault>
    requires start { IsAtStart (I.given items.old) }
    requires least_cap { 1 ≤ cap }
    requires most_cap { cap ≤ MOST_CAP }
    requires least_core { 1 ≤ core }
    requires most_core { core ≤ MOST_CORE }
    ensures planned { IfOk result (λ plan. (s : Soup) × IsRead (I.reading items.old) (I.given items.new) s
        × IsPlanOf cap core s plan) }
    ensures kind { IfErr result IsOfItems }
    ensures shows { IfErr result (ShowsFault (I.reading items.old) (I.given items.new)) }
    ensures fault { fault_of_items result ≡ (I.given items.new).fault }
    ensures taken { HasTaken (I.left items.old) (I.left items.new) }
    ensures read { (I.given items.old).fault ≡ None
        → TellsFailure (BuildFault.Mesh MeshFault.Read) (I.faults items.old) (I.faults items.new) result }
{
    let soup = read_soup(alloc, items, MOST_ITEMS as u32)?;
    plan_of(alloc, soup, cap, core)
}
