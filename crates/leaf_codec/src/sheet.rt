//! Sheets of leaves.

ghost use Rattle.std.specs.Prelude.{◌≡◌, ◌≤◌, ◌++◌, ℕ, [], length, OnOk, IfOk};
ghost use Rattle.std.specs.List.{flat_map};
ghost use Rattle.std.specs.List.Sorted.{IsStrictlyIncreasing};
ghost use Rattle.byte_grammar.specs.Calls.{Gives};
ghost use Rattle.byte_grammar.specs.Reader.{unit, many};
ghost use Rattle.byte_grammar.specs.Numbers.{u16_bytes, u32_bytes};
ghost use Rattle.geometry_bytes.specs.Geometry.{face, face_bytes};
ghost use Rattle.leaf_codec.specs.Sheets.{names_of, vertex, vertex_bytes, vertex_follows, face_follows, sheet, sheet_bytes, FitsSheet, KeepsSheetRules, IsSheetSpelling};
ghost use Rattle.leaf_codec.specs.declared.formats.TheConstants.{LEAF_TAG, MOST_UNITS, NEWEST};

use crate::blob::Blob;
use crate::faces::{FACE_BYTES, FaceUnits};
use crate::formats::{LEAF_TAG, NEWEST, count_at, format_at, put_count};
use crate::leaves::{LEAF_BYTES, LeafUnits, leaves_at};
use crate::vertices::{VERTEX_BYTES, VertexUnits, name_set};
use byte_grammar::{Stop, number_at, put_all, put_u16, put_u32, tag_at, units_at};
use mesh_data::Tris;
use oemm_lists::{Bytes, List};
use oemm_octree::LeafNo;
use sheet_data::{LeafSheet, SheetVertices};
use std::alloc::{AllocError, Global};

/// The number of bytes before the lists of a sheet.
const HEAD_BYTES: usize = 22;

/// The vertices, and the bytes behind them.
fn vertices_at(alloc: Global, count: u32, bytes: &[u8]) -> Result<(SheetVertices, &[u8]), Stop>
    ensures gives { Gives (λ x. (x.0, x.1.now)) result
        (many (λ before. unit (vertex_follows before) vertex) count [] bytes.now) }
    ensures rise { IfOk result (λ x. IsStrictlyIncreasing (names_of x.0)) }
{
    let (vertices, rest) = units_at(alloc, &VertexUnits, count, bytes)?;
    Ok((List::from_vec(vertices), rest))
}

/// The faces of a sheet with these vertices, and the bytes behind them.
fn faces_at<'a>(
    alloc: Global,
    vertices: &SheetVertices,
    count: u32,
    bytes: &'a [u8],
) -> Result<(Tris, &'a [u8]), Stop>
    requires { IsStrictlyIncreasing (names_of vertices.now) }
    ensures { Gives (λ x. (x.0, x.1.now)) result
        (many (λ before. unit (face_follows (names_of vertices.now) before) face) count [] bytes.now) }
{
    let names = name_set(alloc, vertices.slice())?;
    let (faces, rest) = units_at(alloc, &FaceUnits { names }, count, bytes)?;
    Ok((List::from_vec(faces), rest))
}

/// A sheet, and the bytes behind it.
#[tactic(auto, unfolding(crate::specs::Sheets::sheet))]
fn sheet_at(alloc: Global, bytes: &[u8]) -> Result<(LeafSheet, &[u8]), Stop>
    ensures { Gives (λ x. (x.0, x.1.now)) result (sheet bytes.now) }
{
    let (_tag, rest) = tag_at(LEAF_TAG, bytes)?;
    let (_format, rest) = format_at(rest)?;
    let (leaf, rest) = number_at(rest)?;
    let (vertex_count, rest) = count_at(rest)?;
    let (face_count, rest) = count_at(rest)?;
    let (near_count, rest) = count_at(rest)?;
    let (vertices, rest) = vertices_at(alloc, vertex_count, rest)?;
    let (faces, rest) = faces_at(alloc, &vertices, face_count, rest)?;
    let (near, rest) = leaves_at(alloc, Some(LeafNo(leaf)), near_count, rest)?;
    Ok((
        LeafSheet {
            leaf: LeafNo(leaf),
            vertices,
            faces,
            near,
        },
        rest,
    ))
}

/// Puts what stands before the lists of a sheet at the end.
fn put_head(out: &mut Vec<u8>, sheet: &LeafSheet) -> Result<(), AllocError>
    requires vertices { length sheet.now.vertices ≤ MOST_UNITS }
    requires faces { length sheet.now.faces ≤ MOST_UNITS }
    requires near { length sheet.now.near ≤ MOST_UNITS }
    ensures { OnOk result (out.new.items ≡ out.old.items
        ++ (u32_bytes LEAF_TAG ++ (u16_bytes NEWEST ++ (u32_bytes sheet.now.leaf
        ++ (u32_bytes (length sheet.now.vertices) ++ (u32_bytes (length sheet.now.faces) ++ u32_bytes (length sheet.now.near))))))) }
{
    put_u32(out, LEAF_TAG)?;
    put_u16(out, NEWEST)?;
    put_u32(out, sheet.leaf.0)?;
    put_count(out, sheet.vertices.len())?;
    put_count(out, sheet.faces.len())?;
    put_count(out, sheet.near.len())?;
    Ok(())
}

/// Puts the lists of a sheet at the end.
#[tactic(auto, using(byte_grammar::proofs::Items::always))]
fn put_lists(out: &mut Vec<u8>, sheet: &LeafSheet) -> Result<(), AllocError>
    ensures text { OnOk result (out.new.items ≡ out.old.items
        ++ (flat_map vertex_bytes sheet.now.vertices ++ (flat_map face_bytes sheet.now.faces ++ flat_map u32_bytes sheet.now.near))) }
    ensures fits { OnOk result (FitsSheet sheet.now) }
{
    put_all::<VertexUnits>(out, sheet.vertices.slice())?;
    put_all::<FaceUnits>(out, sheet.faces.slice())?;
    put_all::<LeafUnits>(out, sheet.near.slice())?;
    let _leaf = sheet.leaf.0;
    Ok(())
}

/// The bytes of a sheet.
#[tactic(auto, unfolding(crate::specs::Sheets::sheet_bytes))]
fn sheet_bytes(alloc: Global, sheet: &LeafSheet) -> Result<Bytes, AllocError>
    requires vertices { length sheet.now.vertices ≤ MOST_UNITS }
    requires faces { length sheet.now.faces ≤ MOST_UNITS }
    requires near { length sheet.now.near ≤ MOST_UNITS }
    ensures text { IfOk result (λ bytes. bytes ≡ sheet_bytes NEWEST sheet.now) }
    ensures fits { OnOk result (FitsSheet sheet.now) }
{
    let room = HEAD_BYTES
        + VERTEX_BYTES * sheet.vertices.len()
        + FACE_BYTES * sheet.faces.len()
        + LEAF_BYTES * sheet.near.len();
    let mut out = Vec::with_capacity(alloc, room)?;
    put_head(&mut out, sheet)?;
    put_lists(&mut out, sheet)?;
    Ok(List::from_vec(out))
}

impl Blob for LeafSheet {
    ghost reading = { sheet };

    ghost rules = { KeepsSheetRules };

    ghost spelling = { IsSheetSpelling };

    fn encode(&self, alloc: Global) -> Result<Bytes, AllocError> {
        sheet_bytes(alloc, self)
    }

    fn front(alloc: Global, bytes: &[u8]) -> Result<(LeafSheet, &[u8]), Stop> {
        sheet_at(alloc, bytes)
    }

    fn codec_laws() {}
}
