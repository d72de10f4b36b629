ghost use Rattle.std.specs.Prelude.{◌<◌, All, IfOk, IsTrue};
ghost use Rattle.oemm_limits.specs.declared.TheConstants.{MOST_ITEMS};
ghost use Rattle.mesh_data.specs.Triangles.{IsBelow, IsProper};

use super::*;
use crate::audit::audit_by;
use mesh_data::{Audit, Name, Shape, Tri};
use std::alloc::{AllocError, Global};
use std::test::Fail;

fn tri(a: u32, b: u32, c: u32) -> Tri {
    Tri {
        a: Name(a),
        b: Name(b),
        c: Name(c),
    }
}

fn edge(a: u32, b: u32) -> Audit {
    Audit::Bad(Shape::Edge {
        a: Name(a),
        b: Name(b),
    })
}

fn vertex(v: u32) -> Audit {
    Audit::Bad(Shape::Vertex { v: Name(v) })
}

fn good(vertices: u32, faces: u32, euler: i32, border: u32) -> Audit {
    Audit::Good {
        vertices,
        faces,
        euler,
        border,
    }
}

/// Whether the face is one that an audit takes.
fn is_fit(t: &Tri) -> bool
    ensures { IsTrue result → IsProper t.now × IsBelow MOST_ITEMS t.now }
{
    t.a != t.b && t.b != t.c && t.c != t.a && t.a.0 < 100 && t.b.0 < 100 && t.c.0 < 100
}

/// The faces again, or an error if an audit doesn't take one of them.
fn fit(alloc: Global, faces: &[Tri]) -> Result<Vec<Tri>, AllocError>
    ensures proper { IfOk result (λ fit. All IsProper fit.items) }
    ensures below { IfOk result (λ fit. All (IsBelow MOST_ITEMS) fit.items) }
{
    let mut fit = Vec::new(alloc);
    for t in faces {
        if !is_fit(t) {
            return Err(AllocError);
        }
        fit.push(*t)?;
    }
    Ok(fit)
}

/// The audit in parts of one, two or three names, or in the usual ones where four are asked for.
fn answer(alloc: Global, vertices: u8, faces: &[Tri], width: u32) -> Result<Audit, AllocError>
    requires { 0 < width }
{
    let fit = fit(alloc, faces)?;
    if fit.len() > 100 {
        return Err(AllocError);
    }
    let vertices = u32::from(vertices);
    if width == 4 {
        audit_faces(alloc, vertices, fit.as_slice())
    } else {
        audit_by(alloc, vertices, fit.as_slice(), width)
    }
}

#[test]
fn audits(rt: HostRuntime) -> Result<(), Fail> {
    let octahedron = [
        tri(0, 2, 4),
        tri(2, 1, 4),
        tri(1, 3, 4),
        tri(3, 0, 4),
        tri(2, 0, 5),
        tri(1, 2, 5),
        tri(3, 1, 5),
        tri(0, 3, 5),
    ];
    let fan = [tri(3, 9, 1), tri(3, 1, 7), tri(3, 7, 4)];
    let twice = [tri(5, 6, 7), tri(5, 6, 7)];
    let bow_tie = [tri(0, 1, 2), tri(0, 3, 4)];
    let both_sides = [tri(0, 1, 2), tri(0, 2, 1)];
    // Each corner of the two first faces lies before the lesser edge that is twice.
    let greater_edge_first = [tri(0, 7, 8), tri(1, 7, 8), tri(3, 4, 5), tri(3, 4, 6)];
    let edge_and_vertex = [tri(0, 1, 2), tri(0, 3, 4), tri(5, 6, 7), tri(5, 6, 8)];
    let two_bow_ties = [tri(9, 1, 2), tri(9, 3, 4), tri(8, 5, 6), tri(8, 7, 0)];
    for (vertices, faces, want) in [
        (7, octahedron.as_slice(), good(7, 8, 3, 0)),
        (5, fan.as_slice(), good(5, 3, 1, 5)),
        (2, &octahedron[..0], good(2, 0, 2, 0)),
        (3, twice.as_slice(), edge(5, 6)),
        (5, bow_tie.as_slice(), vertex(0)),
        (3, both_sides.as_slice(), vertex(0)),
        (9, greater_edge_first.as_slice(), edge(3, 4)),
        (9, edge_and_vertex.as_slice(), edge(5, 6)),
        (10, two_bow_ties.as_slice(), vertex(8)),
    ] {
        for width in 1..5 {
            let audit = answer(rt.alloc(), vertices, faces, width)?;
            assert_eq!(rt; audit, want, "{faces:?} {width}");
        }
    }
    Ok(())
}
