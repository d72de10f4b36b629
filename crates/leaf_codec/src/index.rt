//! The index of a store.

ghost use Rattle.std.specs.Prelude.{◌≡◌, ◌≤◌, ◌++◌, ℕ, [], length, OnOk, IfOk};
ghost use Rattle.std.specs.List.{flat_map};
ghost use Rattle.byte_grammar.specs.Calls.{Finds, Gives};
ghost use Rattle.byte_grammar.specs.Reader.{unit, many};
ghost use Rattle.byte_grammar.specs.Numbers.{u16_bytes, u32_bytes, i32_bytes};
ghost use Rattle.byte_grammar.specs.Keeps.{IsAlways as Always};
ghost use Rattle.leaf_codec.specs.Index.{cell, cell_bytes, is_cell, FitsCell, index, index_bytes, FitsIndex, KeepsIndexRules, IsIndexSpelling};
ghost use Rattle.leaf_codec.specs.declared.formats.TheConstants.{INDEX_TAG, NEWEST};
ghost use Rattle.oemm_limits.specs.declared.TheConstants.{MOST_LEAVES};

use crate::blob::Blob;
use crate::formats::{INDEX_TAG, NEWEST, format_at, put_count};
use byte_grammar::{
    Stop, Units, number_at, put_all, put_i32, put_u8, put_u16, put_u32, signed_at, tag_at, u8_at,
    u32_in, units_at,
};
use oemm_limits::{MOST_CAP, MOST_CORE, MOST_DEPTH, MOST_ITEMS, MOST_LEAVES};
use oemm_lists::{Bytes, List};
use oemm_octree::{Cell, Cells};
use sheet_data::IndexSheet;
use std::alloc::{AllocError, Global};

/// The number of bytes before the cells of an index.
const HEAD_BYTES: usize = 34;

/// The number of bytes of a cell.
const CELL_BYTES: usize = 4;

/// A cell, and the bytes behind it.
#[tactic(auto, unfolding(crate::specs::Index::cell))]
fn cell_at(bytes: &[u8]) -> Option<(Cell, &[u8])>
    ensures { Finds (λ x. (x.0, x.1.now)) result (cell bytes.now) }
{
    let (depth, rest) = u8_at(bytes)?;
    let (x, rest) = u8_at(rest)?;
    let (y, rest) = u8_at(rest)?;
    let (z, rest) = u8_at(rest)?;
    Some((Cell { depth, x, y, z }, rest))
}

/// Puts a cell at the end.
#[tactic(auto, unfolding(crate::specs::Index::cell_bytes))]
fn put_cell(out: &mut Vec<u8>, c: &Cell) -> Result<(), AllocError>
    ensures { OnOk result (out.new.items ≡ out.old.items ++ cell_bytes c.now) }
{
    put_u8(out, c.depth)?;
    put_u8(out, c.x)?;
    put_u8(out, c.y)?;
    put_u8(out, c.z)?;
    Ok(())
}

/// Whether an octree can have the cell.
#[tactic(auto, unfolding(crate::specs::Index::is_cell))]
fn is_cell(c: &Cell) -> bool
    ensures { result ≡ is_cell c.now }
{
    if c.depth > MOST_DEPTH {
        return false;
    }
    let places = 1u8 << c.depth;
    c.x < places && c.y < places && c.z < places
}

/// The cells of an index.
#[derive(Clone, Copy)]
pub struct CellUnits;

impl Units for CellUnits {
    type Item = Cell;

    fn most(len: usize) -> usize {
        len / CELL_BYTES
    }

    ghost reading = { λ _ before. unit is_cell cell };

    ghost fits = { FitsCell };

    ghost sound = { Always };

    ghost spelled = { cell_bytes };

    fn write(item: &Cell, out: &mut Vec<u8>) -> Result<(), AllocError> {
        put_cell(out, item)
    }

    fn known(item: &Cell) {
        let _depth = item.depth;
        let _x = item.x;
        let _y = item.y;
        let _z = item.z;
    }

    fn read<'a>(
        &self,
        alloc: Global,
        before: &[Cell],
        bytes: &'a [u8],
    ) -> Result<(Cell, &'a [u8]), Stop> {
        let left = bytes.len();
        let Some((cell, rest)) = cell_at(bytes) else {
            return Err(Stop::Bad { left });
        };
        if !is_cell(&cell) {
            return Err(Stop::Bad { left });
        }
        Ok((cell, rest))
    }
}

/// So many cells, and the bytes behind them.
fn cells_at(alloc: Global, count: u32, bytes: &[u8]) -> Result<(Cells, &[u8]), Stop>
    ensures { Gives (λ x. (x.0, x.1.now)) result (many (λ before. unit is_cell cell) count [] bytes.now) }
{
    let (cells, rest) = units_at(alloc, &CellUnits, count, bytes)?;
    Ok((List::from_vec(cells), rest))
}

/// An index, and the bytes behind it.
#[tactic(auto, unfolding(crate::specs::Index::index))]
fn index_at(alloc: Global, bytes: &[u8]) -> Result<(IndexSheet, &[u8]), Stop>
    ensures { Gives (λ x. (x.0, x.1.now)) result (index bytes.now) }
{
    let (_tag, rest) = tag_at(INDEX_TAG, bytes)?;
    let (_format, rest) = format_at(rest)?;
    let (cap, rest) = u32_in(1, MOST_CAP, rest)?;
    let (core, rest) = u32_in(1, MOST_CORE, rest)?;
    let (vertices, rest) = u32_in(0, MOST_ITEMS as u32, rest)?;
    let (faces, rest) = u32_in(0, MOST_ITEMS as u32, rest)?;
    let (euler, rest) = signed_at(rest)?;
    let (border, rest) = number_at(rest)?;
    let (count, rest) = u32_in(1, MOST_LEAVES, rest)?;
    let (cells, rest) = cells_at(alloc, count, rest)?;
    Ok((
        IndexSheet {
            cap,
            core,
            vertices,
            faces,
            euler,
            border,
            cells,
        },
        rest,
    ))
}

/// Puts what stands before the cells of an index at the end.
fn put_head(out: &mut Vec<u8>, s: &IndexSheet) -> Result<(), AllocError>
    requires { length s.now.cells ≤ MOST_LEAVES }
    ensures { OnOk result (out.new.items ≡ out.old.items
        ++ (u32_bytes INDEX_TAG ++ (u16_bytes NEWEST ++ (u32_bytes s.now.cap ++ (u32_bytes s.now.core
        ++ (u32_bytes s.now.vertices ++ (u32_bytes s.now.faces ++ (i32_bytes s.now.euler
        ++ (u32_bytes s.now.border ++ u32_bytes (length s.now.cells)))))))))) }
{
    put_u32(out, INDEX_TAG)?;
    put_u16(out, NEWEST)?;
    put_u32(out, s.cap)?;
    put_u32(out, s.core)?;
    put_u32(out, s.vertices)?;
    put_u32(out, s.faces)?;
    put_i32(out, s.euler)?;
    put_u32(out, s.border)?;
    put_count(out, s.cells.len())?;
    Ok(())
}

/// The bytes of an index.
#[tactic(auto, using(byte_grammar::proofs::Items::always), unfolding(crate::specs::Index::index_bytes))]
fn index_bytes(alloc: Global, s: &IndexSheet) -> Result<Bytes, AllocError>
    requires { length s.now.cells ≤ MOST_LEAVES }
    ensures text { IfOk result (λ bytes. bytes ≡ index_bytes NEWEST s.now) }
    ensures fits { OnOk result (FitsIndex s.now) }
{
    let room = HEAD_BYTES + CELL_BYTES * s.cells.len();
    let mut out = Vec::with_capacity(alloc, room)?;
    put_head(&mut out, s)?;
    put_all::<CellUnits>(&mut out, s.cells.slice())?;
    let _euler = s.euler;
    let _border = s.border;
    Ok(List::from_vec(out))
}

impl Blob for IndexSheet {
    ghost reading = { index };

    ghost rules = { KeepsIndexRules };

    ghost spelling = { IsIndexSpelling };

    fn encode(&self, alloc: Global) -> Result<Bytes, AllocError> {
        index_bytes(alloc, self)
    }

    fn front(alloc: Global, bytes: &[u8]) -> Result<(IndexSheet, &[u8]), Stop> {
        index_at(alloc, bytes)
    }

    fn codec_laws() {}
}
