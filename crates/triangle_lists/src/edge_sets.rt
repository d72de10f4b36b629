//! Undirected edges, and the border.

ghost use Rattle.std.specs.Prelude.{◌≡◌, ◌≤◌, ◌*◌, map, length, not, filter, IfOk};
ghost use Rattle.std.specs.FinSet as set;
ghost use Rattle.std.specs.List.{list_any};
ghost use Rattle.std.specs.List.Sorted.{IsStrictlySortedBy};
ghost use Rattle.mesh_data.specs.Triangles.{edge_cmp, directed_edges, has_edge, reversed, same_edge, undirected, undirected_edges};
ghost use Rattle.mesh_data.specs.Triangles.{each_once};

use mesh_data::{Edge, Edges, Tri};
use oemm_lists::List;
use std::alloc::{AllocError, Global};

/// The edge from its other end.
pub(crate) fn reversed_edge(e: &Edge) -> Edge
    ensures { result ≡ reversed e.now }
{
    Edge { a: e.b, b: e.a }
}

/// The edge with its lesser name first.
fn undirected_edge(e: &Edge) -> Edge
    ensures { result ≡ undirected e.now }
{
    if e.b < e.a { reversed_edge(e) } else { *e }
}

pub(crate) fn directed_list(alloc: Global, tris: &[Tri]) -> Result<Vec<Edge>, AllocError>
    ensures edges { IfOk result (λ edges. edges.items ≡ directed_edges tris.now) }
    ensures len { IfOk result (λ edges. length edges.items ≡ 3 * length tris.now) }
{
    let mut edges = Vec::new(alloc);
    for t in tris {
        edges.extend_from_slice(&[
            Edge { a: t.a, b: t.b },
            Edge { a: t.b, b: t.c },
            Edge { a: t.c, b: t.a },
        ])?;
    }
    Ok(edges)
}

/// The same edges, each once and ascending.
pub(crate) fn each_once(mut edges: Vec<Edge>) -> Vec<Edge>
    ensures items { result.items ≡ each_once edges.items }
    ensures len { length result.items ≡ set.len (set.from_list {R = edge_cmp} edges.items) }
    ensures few { length result.items ≤ length edges.items }
    ensures ascending { IsStrictlySortedBy edge_cmp result.items }
{
    edges.sort_unstable();
    edges.dedup();
    edges
}

/// Whether one of these sorted edges is this one.
fn has_edge(sorted: &[Edge], e: &Edge) -> bool
    requires { IsStrictlySortedBy edge_cmp sorted.now }
    ensures { result ≡ list_any (same_edge e.now) sorted.now }
{
    sorted.binary_search(e).is_ok()
}

fn undirected_list(alloc: Global, directed: &[Edge]) -> Result<Vec<Edge>, AllocError>
    ensures { IfOk result (λ edges. edges.items ≡ map undirected directed.now) }
{
    directed.iter().map(undirected_edge).collect(alloc)
}

/// The edges whose reverse isn't among the sorted ones.
fn lone_edges(alloc: Global, edges: &[Edge], sorted: &[Edge]) -> Result<Vec<Edge>, AllocError>
    requires { IsStrictlySortedBy edge_cmp sorted.now }
    ensures edges { IfOk result (λ lone. lone.items
        ≡ filter (λ e. not (list_any (same_edge (reversed e)) sorted.now)) edges.now) }
    ensures few { IfOk result (λ lone. length lone.items ≤ length edges.now) }
{
    edges
        .iter()
        .copied()
        .filter(|e| !has_edge(sorted, &reversed_edge(e)))
        .collect(alloc)
}

/// The number of undirected edges.
///
/// # Errors
/// Want of memory.
pub fn count_undirected(alloc: Global, tris: &[Tri]) -> Result<usize, AllocError>
    ensures count { IfOk result (λ n. n ≡ set.len (undirected_edges tris.now)) }
    ensures few { IfOk result (λ n. n ≤ 3 * length tris.now) }
{
    let directed = directed_list(alloc, tris)?;
    let edges = undirected_list(alloc, directed.as_slice())?;
    Ok(each_once(edges).len())
}

/// The directed edges whose reverse is in no triangle, ascending.
///
/// # Errors
/// Want of memory.
pub fn border_list(alloc: Global, tris: &[Tri]) -> Result<Edges, AllocError>
    ensures edges { IfOk result (λ edges. edges
        ≡ each_once (filter (λ e. not (has_edge tris.now (reversed e))) (directed_edges tris.now))) }
    ensures few { IfOk result (λ edges. length edges ≤ 3 * length tris.now) }
{
    let directed = directed_list(alloc, tris)?;
    let sorted = each_once(directed_list(alloc, tris)?);
    let border = lone_edges(alloc, directed.as_slice(), sorted.as_slice())?;
    Ok(List::from_vec(each_once(border)))
}
