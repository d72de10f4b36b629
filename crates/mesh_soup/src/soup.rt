//! The points and faces that a reader gives.

ghost use Rattle.std.specs.Prelude.{◌≡◌, ◌≤◌, length, map, All, IfOk, IfErr, OnOk, IfSome, None, Some};
ghost use Rattle.std.specs.Option.{option_map};
ghost use Rattle.fault_counts.specs.Counts.{TellsFailure};
ghost use Rattle.oemm_limits.specs.declared.TheConstants.{MOST_ITEMS};
ghost use Rattle.mesh_items.specs.declared.items.Item.TheVariants.{Counts, Vertex, Face};
ghost use Rattle.mesh_items.specs.Reading.{item_then, nothing_more, soup, ReadsFault};
ghost use Rattle.mesh_data.specs.Triangles.{IsProper, IsBelow};
ghost use Rattle.mesh_soup.specs.Soup.{IsAllOf, IsAnswered, IsAtStart, IsCause, IsSoup, ReadsSoup, StopsAt, given_of, items_then, limited};
ghost use Rattle.mesh_soup.specs.Taken.{HasTaken};

use mesh_data::{Soup, Tris};
use mesh_items::{Item, Items, MeshFault};
use oemm_limits::What;
use oemm_lists::List;
use oemm_octree::Points;
use std::alloc::{AllocFailed, Global};

/// Why points and faces can't be read.
#[derive(Clone, Copy, Debug, PartialEq, Eq)]
pub enum SoupFault {
    /// The reader's fault, or `TooMany` where there are more vertices than the limit.
    Mesh(MeshFault),
    /// There is no memory for the points and faces.
    Memory,
}

impl From<MeshFault> for SoupFault {
    ghost use Rattle.std.specs.Prelude.{◌≡◌};
    ghost use Rattle.mesh_soup.specs.declared.soup.SoupFault.TheVariants.{Mesh};

    ghost from_gives = { λ fault told. told ≡ Mesh fault };

    fn from(fault: MeshFault) -> SoupFault {
        SoupFault::Mesh(fault)
    }
}

impl<T: Drop> From<AllocFailed<T>> for SoupFault {
    ghost use Rattle.std.specs.Prelude.{◌≡◌};
    ghost use Rattle.mesh_soup.specs.declared.soup.SoupFault.TheVariants.{Memory};

    ghost from_gives = { λ _ fault. fault ≡ Memory };

    fn from(_: AllocFailed<T>) -> SoupFault {
        SoupFault::Memory
    }
}

/// The counts, which come first.
#[tactic(auto, using(crate::proofs::Takings::taken_none, crate::proofs::Takings::taken_more))]
fn next_counts<I: Items>(items: &mut I) -> Result<(u32, u32), MeshFault>
    requires { IsAtStart (I.given items.old) }
    ensures given { IfOk result (λ n. I.given items.new ≡ given_of n.0 n.1 0 0) }
    ensures fault { IfErr result (λ fault. (I.given items.new).fault ≡ Some fault) }
    ensures few { IfOk result (λ n. (n.0 ≤ MOST_ITEMS) × (n.1 ≤ MOST_ITEMS)) }
    ensures told { IfOk result
        (λ n. I.reading items.old ≡ option_map (item_then (Counts n.0 n.1)) (I.reading items.new)) }
    ensures stops { IfErr result (λ fault. ReadsFault (I.reading items.old) fault (I.reading items.new)) }
    ensures taken { HasTaken (I.left items.old) (I.left items.new) }
    ensures cause { (I.given items.old).fault ≡ None
        → TellsFailure MeshFault.Read (I.faults items.old) (I.faults items.new) result }
{
    match items.next()? {
        Some(Item::Counts { v, f }) => Ok((v, f)),
        _ => unreachable!(),
    }
}

/// The vertices, which come after the counts.
#[tactic(auto, using(crate::proofs::Readings::all_none, crate::proofs::Readings::points_more, crate::proofs::Readings::stops_before, crate::proofs::Takings::taken_none, crate::proofs::Takings::taken_more))]
fn next_points<I: Items>(
    alloc: Global,
    items: &mut I,
    counts: (u32, u32),
) -> Result<Points, SoupFault>
    requires { I.given items.old ≡ given_of counts.0 counts.1 0 0 }
    ensures given { OnOk result (I.given items.new ≡ given_of counts.0 counts.1 counts.0 0) }
    ensures fault { IfErr result (IsAnswered (I.given items.new)) }
    ensures count { IfOk result (λ ps. length ps ≡ counts.0) }
    ensures told { IfOk result
        (λ ps. I.reading items.old ≡ option_map (items_then (map Vertex ps)) (I.reading items.new)) }
    ensures stops { IfErr result (StopsAt (I.reading items.old)) }
    ensures taken { HasTaken (I.left items.old) (I.left items.new) }
    ensures cause { TellsFailure (SoupFault.Mesh MeshFault.Read) (I.faults items.old) (I.faults items.new) result }
{
    let mut points = Vec::new(alloc);
    for _place in 0..counts.0 {
        match items.next()? {
            Some(Item::Vertex(point)) => points.push(point)?,
            _ => unreachable!(),
        }
    }
    Ok(List::from_vec(points))
}

/// The faces, which come after the vertices.
#[tactic(auto, using(crate::proofs::Readings::all_none, crate::proofs::Readings::faces_more, crate::proofs::Readings::stops_before, crate::proofs::Takings::taken_none, crate::proofs::Takings::taken_more))]
fn next_faces<I: Items>(alloc: Global, items: &mut I, counts: (u32, u32)) -> Result<Tris, SoupFault>
    requires { I.given items.old ≡ given_of counts.0 counts.1 counts.0 0 }
    ensures given { OnOk result (I.given items.new ≡ given_of counts.0 counts.1 counts.0 counts.1) }
    ensures fault { IfErr result (IsAnswered (I.given items.new)) }
    ensures count { IfOk result (λ ts. length ts ≡ counts.1) }
    ensures proper { IfOk result (All IsProper) }
    ensures below { IfOk result (All (IsBelow counts.0)) }
    ensures told { IfOk result
        (λ ts. I.reading items.old ≡ option_map (items_then (map Face ts)) (I.reading items.new)) }
    ensures stops { IfErr result (StopsAt (I.reading items.old)) }
    ensures taken { HasTaken (I.left items.old) (I.left items.new) }
    ensures cause { TellsFailure (SoupFault.Mesh MeshFault.Read) (I.faults items.old) (I.faults items.new) result }
{
    let mut faces = Vec::new(alloc);
    for _place in 0..counts.1 {
        match items.next()? {
            Some(Item::Face(face)) => faces.push(face)?,
            _ => unreachable!(),
        }
    }
    Ok(List::from_vec(faces))
}

/// What comes after the last face: nothing.
#[tactic(auto, using(crate::proofs::Readings::stops_now, crate::proofs::Takings::taken_none, crate::proofs::Takings::taken_more))]
fn next_end<I: Items>(items: &mut I, counts: (u32, u32)) -> Result<(), SoupFault>
    requires { I.given items.old ≡ given_of counts.0 counts.1 counts.0 counts.1 }
    ensures given { OnOk result (I.given items.new ≡ I.given items.old) }
    ensures fault { IfErr result (IsAnswered (I.given items.new)) }
    ensures told { OnOk result (IfSome (I.reading items.old) (λ r. r ≡ nothing_more)) }
    ensures stops { IfErr result (StopsAt (I.reading items.old)) }
    ensures taken { HasTaken (I.left items.old) (I.left items.new) }
    ensures cause { TellsFailure (SoupFault.Mesh MeshFault.Read) (I.faults items.old) (I.faults items.new) result }
{
    match items.next()? {
        None => Ok(()),
        Some(_) => unreachable!(),
    }
}

/// All points and faces of a reader that has given no item yet, where it has at most so many vertices.
///
/// # Errors
/// `Mesh` with the fault that the reader answers, or with `TooMany` where it counts more vertices than `most`; `Memory`
/// where there is none for the points and faces.
#[tactic(auto, using(crate::proofs::Readings::soup_done, crate::proofs::Readings::soup_many, crate::proofs::Readings::soup_first, crate::proofs::Readings::soup_later, crate::proofs::Readings::all_stop))]
pub fn read_soup<I: Items>(alloc: Global, items: &mut I, most: u32) -> Result<Soup, SoupFault>
    requires { IsAtStart (I.given items.old) }
    ensures told { IfSome (I.reading items.old) (λ r. ReadsSoup result (soup (limited most r))) }
    ensures ranges { IfOk result (IsSoup most) }
    ensures given { IfOk result (IsAllOf (I.given items.new)) }
    ensures fault { IfErr result (IsCause most (I.given items.new)) }
    ensures taken { HasTaken (I.left items.old) (I.left items.new) }
    ensures cause { (I.given items.old).fault ≡ None
        → TellsFailure (SoupFault.Mesh MeshFault.Read) (I.faults items.old) (I.faults items.new) result }
{
    let counts = next_counts(items)?;
    if counts.0 > most {
        return Err(SoupFault::Mesh(MeshFault::TooMany {
            what: What::Vertices,
            count: u64::from(counts.0),
        }));
    }
    let points = next_points(alloc, items, counts)?;
    let faces = next_faces(alloc, items, counts)?;
    next_end(items, counts)?;
    Ok(Soup { points, faces })
}
