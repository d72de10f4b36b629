//! Half-edges made of triangles, one after another.

ghost use Rattle.std.specs.Prelude.{◌≡◌, ◌==◌, ◌&&◌, ℕ, Some, None, IfOk, OnOk, if◌then◌else◌};
ghost use Rattle.half_edge.specs.Halves.{at, altered, with_next, IsSound};
ghost use Rattle.half_edge.specs.Building.{edge_key, Tells, put_at, told_twin, IsNew, Added, IsAdded};
ghost use Rattle.std.specs.List.{All};
ghost use Rattle.mesh_data.specs.Manifold.{IsEachEdgeOnce};
ghost use Rattle.mesh_data.specs.Triangles.{IsProper};
ghost use Rattle.half_edge.specs.Built.{Built};

use crate::surgery::Half;
use mesh_data::{Edge, Name, Tri};
use slab::Slab;
use std::alloc::{AllocError, Global};
use std::collections::BTreeMap;

/// The key at the edge from a to b.
fn edge_key(edges: &BTreeMap<Edge, usize>, a: Name, b: Name) -> Option<usize>
    ensures { result ≡ edge_key edges.now a b }
{
    edges.get(&Edge { a, b }).copied()
}

/// Puts a key at the edge from a to b.
fn put_edge(edges: &mut BTreeMap<Edge, usize>, a: Name, b: Name, k: usize) -> Result<(), AllocError>
    ensures { OnOk result ((x y : ℕ)
        → edge_key edges.new x y ≡ (if x == a && y == b then Some k else edge_key edges.old x y)) }
{
    edges.insert(Edge { a, b }, k)?;
    Ok(())
}

/// Puts a half-edge at a free key.
fn put_half(halves: &mut Slab<Half>, half: Half) -> Result<usize, AllocError>
    ensures free { IfOk result (λ k. at halves.old.slots k ≡ None) }
    ensures put { IfOk result (λ k. (j : ℕ) → at halves.new.slots j ≡ put_at k half j (at halves.old.slots j)) }
{
    let k = halves.insert(half)?;
    Ok(k)
}

/// Makes k the twin of the half-edge at p, if there is one.
fn tell_twin(halves: &mut Slab<Half>, p: Option<usize>, k: usize)
    ensures { (j : ℕ) → at halves.new.slots j ≡ told_twin p k j (at halves.old.slots j) }
{
    if let Some(j) = p {
        if let Some(half) = halves.get_mut(j) {
            half.twin = Some(k);
        }
    }
}

/// Makes k the next of the half-edge at m.
fn set_next(halves: &mut Slab<Half>, m: usize, k: usize)
    ensures { (j : ℕ) → at halves.new.slots j ≡ altered m (with_next k) j (at halves.old.slots j) }
{
    if let Some(half) = halves.get_mut(m) {
        half.next = k;
    }
}

/// Adds the half-edges of a triangle.
fn add_halves(
    halves: &mut Slab<Half>,
    edges: &BTreeMap<Edge, usize>,
    t: &Tri,
) -> Result<(usize, usize, usize), AllocError>
    requires sound { IsSound halves.old.slots }
    requires tells { Tells edges.now halves.old.slots }
    requires fresh { IsNew halves.old.slots t.now }
    ensures { IfOk result (λ keys. IsAdded halves.old.slots halves.new.slots t.now (record {
      k = keys.0;
      l = keys.1;
      m = keys.2;
      p = edge_key edges.now t.now.b t.now.a;
      q = edge_key edges.now t.now.c t.now.b;
      w = edge_key edges.now t.now.a t.now.c;
    })) }
{
    let p = edge_key(edges, t.b, t.a);
    let q = edge_key(edges, t.c, t.b);
    let w = edge_key(edges, t.a, t.c);
    let m = put_half(
        halves,
        Half {
            face: Tri {
                a: t.c,
                b: t.a,
                c: t.b,
            },
            lead: false,
            next: 0,
            twin: w,
        },
    )?;
    let l = put_half(
        halves,
        Half {
            face: Tri {
                a: t.b,
                b: t.c,
                c: t.a,
            },
            lead: false,
            next: m,
            twin: q,
        },
    )?;
    let k = put_half(
        halves,
        Half {
            face: *t,
            lead: true,
            next: l,
            twin: p,
        },
    )?;
    set_next(halves, m, k);
    tell_twin(halves, p, k);
    tell_twin(halves, q, l);
    tell_twin(halves, w, m);
    Ok((k, l, m))
}

/// Adds a triangle.
fn add_face(
    halves: &mut Slab<Half>,
    edges: &mut BTreeMap<Edge, usize>,
    t: &Tri,
) -> Result<(), AllocError>
    requires sound { IsSound halves.old.slots }
    requires tells { Tells edges.old halves.old.slots }
    requires fresh { IsNew halves.old.slots t.now }
    ensures tells { OnOk result (Tells edges.new halves.new.slots) }
    ensures added { OnOk result ((x : Added) × IsAdded halves.old.slots halves.new.slots t.now x) }
{
    let (k, l, m) = add_halves(halves, edges, t)?;
    put_edge(edges, t.a, t.b, k)?;
    put_edge(edges, t.b, t.c, l)?;
    put_edge(edges, t.c, t.a, m)?;
    Ok(())
}

/// The half-edges of these triangles, with the keys of their edges.
pub(crate) fn build(
    alloc: Global,
    faces: &[Tri],
) -> Result<(Slab<Half>, BTreeMap<Edge, usize>), AllocError>
    requires proper { All IsProper faces.now }
    requires once { IsEachEdgeOnce faces.now }
    ensures { IfOk result (λ made. Built made.0.slots made.1 faces.now) }
{
    let mut halves = Slab::new(alloc);
    let mut edges = BTreeMap::new(alloc);
    for t in faces {
        add_face(&mut halves, &mut edges, t)?;
    }
    Ok((halves, edges))
}
