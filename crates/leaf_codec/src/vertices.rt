//! The vertices of a sheet.

ghost use Rattle.std.specs.Prelude.{◌≡◌, ◌++◌, ℕ, OnOk, IfOk};
ghost use Rattle.std.specs.List.Sorted.{IsStrictlyIncreasing};
ghost use Rattle.byte_grammar.specs.Calls.{Finds};
ghost use Rattle.byte_grammar.specs.Reader.{unit};
ghost use Rattle.byte_grammar.specs.Keeps.{IsAlways as Always};
ghost use Rattle.leaf_codec.specs.Sheets.{vertex, vertex_bytes, vertex_follows, names_of, FitsVertex};

use byte_grammar::{Stop, Units, put_u32, u32_at};
use geometry_bytes::{name_known, point_at, point_known, put_point, put_quad, quad_at, quad_known};
use mesh_data::{Name, NameSet};
use oemm_lists::List;
use sheet_data::SheetVertex;
use std::alloc::{AllocError, Global};

/// The number of bytes of a vertex.
pub const VERTEX_BYTES: usize = 174;

/// A vertex, and the bytes behind it.
#[tactic(auto, unfolding(crate::specs::Sheets::vertex))]
fn vertex_at(bytes: &[u8]) -> Option<(SheetVertex, &[u8])>
    ensures { Finds (λ x. (x.0, x.1.now)) result (vertex bytes.now) }
{
    let (name, rest) = u32_at(bytes)?;
    let (point, rest) = point_at(rest)?;
    let (quad, rest) = quad_at(rest)?;
    Some((
        SheetVertex {
            name: Name(name),
            point,
            quad,
        },
        rest,
    ))
}

/// Puts a vertex at the end.
#[tactic(auto, unfolding(crate::specs::Sheets::vertex_bytes))]
fn put_vertex(out: &mut Vec<u8>, v: &SheetVertex) -> Result<(), AllocError>
    ensures { OnOk result (out.new.items ≡ out.old.items ++ vertex_bytes v.now) }
{
    put_u32(out, v.name.0)?;
    put_point(out, &v.point)?;
    put_quad(out, &v.quad)?;
    Ok(())
}

/// Whether the vertex lies above those before it.
#[tactic(auto, unfolding(crate::specs::Sheets::is_above, crate::specs::Sheets::vertex_follows))]
fn vertex_follows(before: &[SheetVertex], vertex: &SheetVertex) -> bool
    ensures { result ≡ vertex_follows before.now vertex.now }
{
    match before.last() {
        None => true,
        Some(last) => last.name < vertex.name,
    }
}

/// The set of the names of the vertices.
pub fn name_set(alloc: Global, vertices: &[SheetVertex]) -> Result<NameSet, AllocError>
    requires { IsStrictlyIncreasing (names_of vertices.now) }
    ensures { IfOk result (λ names. names ≡ names_of vertices.now) }
{
    let mut names = Vec::with_capacity(alloc, vertices.len())?;
    for vertex in vertices {
        names.push(vertex.name)?;
    }
    Ok(NameSet::of(List::from_vec(names)))
}

/// The vertices of a sheet, which ascend by name.
#[derive(Clone, Copy)]
pub struct VertexUnits;

impl Units for VertexUnits {
    type Item = SheetVertex;

    fn most(len: usize) -> usize {
        len / VERTEX_BYTES
    }

    ghost reading = { λ _ before. unit (vertex_follows before) vertex };

    ghost fits = { FitsVertex };

    ghost sound = { Always };

    ghost spelled = { vertex_bytes };

    fn write(item: &SheetVertex, out: &mut Vec<u8>) -> Result<(), AllocError> {
        put_vertex(out, item)
    }

    fn known(item: &SheetVertex) {
        name_known(&item.name);
        point_known(&item.point);
        quad_known(&item.quad);
    }

    fn read<'a>(
        &self,
        alloc: Global,
        before: &[SheetVertex],
        bytes: &'a [u8],
    ) -> Result<(SheetVertex, &'a [u8]), Stop> {
        let left = bytes.len();
        let Some((vertex, rest)) = vertex_at(bytes) else {
            return Err(Stop::Bad { left });
        };
        if !vertex_follows(before, &vertex) {
            return Err(Stop::Bad { left });
        }
        Ok((vertex, rest))
    }
}
