//! What is wrong with triangles, part by part of their names.

ghost use Rattle.std.specs.Prelude.{◌≡◌, ◌≤◌, ◌<◌, length, All, IfOk};
ghost use Rattle.oemm_limits.specs.declared.TheConstants.{MOST_ITEMS};
ghost use Rattle.mesh_data.specs.Triangles.{IsBelow, border_edges};
ghost use Rattle.face_audit.specs.Parts.{is_within, touches, part, AreOfRange, count_within, is_edge_below, Finds};

use mesh_data::{Name, NameSet, Shape, Tri};
use oemm_limits::MOST_ITEMS;
use std::alloc::{AllocError, Global};
use triangle_lists::{border_list, first_held_fault};

/// What is found of triangles.
#[derive(Clone, Copy, Debug, PartialEq, Eq)]
pub(crate) struct Findings {
    /// What is first wrong with them.
    pub(crate) fault: Option<Shape>,
    /// How many border edges they have, where nothing is wrong.
    pub(crate) border: usize,
}

/// Whether the name lies in the range.
fn is_within(v: Name, low: Name, high: Name) -> bool
    ensures { result ≡ is_within low high v }
{
    low <= v && v < high
}

/// Whether a corner of the triangle lies in the range.
fn touches(t: &Tri, low: Name, high: Name) -> bool
    ensures { result ≡ touches low high t.now }
{
    is_within(t.a, low, high) || is_within(t.b, low, high) || is_within(t.c, low, high)
}

/// The triangles that have a corner in the range.
fn part_of(alloc: Global, tris: &[Tri], low: Name, high: Name) -> Result<Vec<Tri>, AllocError>
    ensures { IfOk result (λ found. found.items ≡ part low high tris.now) }
{
    tris.iter()
        .copied()
        .filter(|t| touches(t, low, high))
        .collect(alloc)
}

/// The names of the range.
fn names_of(alloc: Global, low: u32, high: u32) -> Result<NameSet, AllocError>
    requires { low ≤ high }
    ensures { IfOk result (λ names. AreOfRange low high names) }
{
    let mut names = NameSet::new(alloc);
    for v in low..high {
        names.add(Name(v))?;
    }
    Ok(names)
}

/// How many border edges of these triangles begin in the range.
fn border_within(alloc: Global, tris: &[Tri], low: Name, high: Name) -> Result<usize, AllocError>
    ensures { IfOk result (λ n. n ≡ count_within low high (border_edges tris.now)) }
{
    let border = border_list(alloc, tris)?;
    Ok(
        border
            .slice()
            .iter()
            .filter(|e| is_within(e.a, low, high))
            .count(),
    )
}

/// Whether what was found is an edge that begins below n.
fn is_edge_below(n: Name, found: &Option<Shape>) -> bool
    ensures { result ≡ is_edge_below n found.now }
{
    match found {
        Some(Shape::Edge { a, .. }) => *a < n,
        Some(Shape::Vertex { .. }) | None => false,
    }
}

/// The end of the part of at most so many names that begins at low.
fn end_of(low: u32, names: u32, width: u32) -> u32
    requires more { low < names }
    requires wide { 0 < width }
    ensures above { low < result }
    ensures within { result ≤ names }
{
    if names - low > width {
        low + width
    } else {
        names
    }
}

/// The least directed edge that two triangles have, else the least vertex that is in a triangle and has no ring, else
/// the number of border edges; in parts of at most so many names. In each part all is asked of its names alone. An edge
/// from a lesser name would have been answered before, and one from a greater name waits for its part; a vertex waits for
/// the last part, since any edge goes before it.
pub(crate) fn find_in_parts(
    alloc: Global,
    tris: &[Tri],
    names: u32,
    width: u32,
) -> Result<Findings, AllocError>
    requires below { All (IsBelow names) tris.now }
    requires few { length tris.now ≤ MOST_ITEMS }
    requires wide { 0 < width }
    ensures { IfOk result (Finds tris.now) }
{
    let mut known = None;
    let mut border: usize = 0;
    let mut low = 0;
    while low < names {
        let high = end_of(low, names, width);
        let part = part_of(alloc, tris, Name(low), Name(high))?;
        let held = names_of(alloc, low, high)?;
        let fault = first_held_fault(alloc, part.as_slice(), &held)?;
        if is_edge_below(Name(high), &fault) {
            return Ok(Findings { fault, border: 0 });
        }
        known = known.or(fault);
        border += border_within(alloc, part.as_slice(), Name(low), Name(high))?;
        low = high;
    }
    Ok(Findings {
        fault: known,
        border,
    })
}
