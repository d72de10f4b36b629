//! Edits.

ghost use Rattle.std.specs.Prelude.{◌≡◌, ◌++◌, OnOk};
ghost use Rattle.byte_grammar.specs.Calls.{Finds};
ghost use Rattle.byte_grammar.specs.Reader.{unit};
ghost use Rattle.byte_grammar.specs.Keeps.{IsAlways as Always};
ghost use Rattle.leaf_codec.specs.Edits.{edit_bytes, FitsEdit, is_edit, is_bound, collapse, move_fields, flip, simplify, edit};

use byte_grammar::{Stop, Units, i128_at, put_i128, put_u8, put_u32, u8_at, u32_at};
use geometry_bytes::{name_known, point_at, point_known, put_point};
use mesh_data::{Edit, Name};
use oemm_limits::{MOST_COST, MOST_ITEMS};
use std::alloc::{AllocError, Global};

/// The least number of bytes of an edit.
const LEAST_EDIT_BYTES: usize = 9;

/// The fields of a collapse, and the bytes behind them.
#[tactic(auto, unfolding(crate::specs::Edits::collapse))]
fn collapse_at(bytes: &[u8]) -> Option<(Edit, &[u8])>
    ensures { Finds (λ x. (x.0, x.1.now)) result (collapse bytes.now) }
{
    let (u, rest) = u32_at(bytes)?;
    let (v, rest) = u32_at(rest)?;
    let (max, rest) = i128_at(rest)?;
    Some((
        Edit::Collapse {
            u: Name(u),
            v: Name(v),
            max,
        },
        rest,
    ))
}

/// The fields of a move, and the bytes behind them.
#[tactic(auto, unfolding(crate::specs::Edits::move_fields))]
fn move_at(bytes: &[u8]) -> Option<(Edit, &[u8])>
    ensures { Finds (λ x. (x.0, x.1.now)) result (move_fields bytes.now) }
{
    let (v, rest) = u32_at(bytes)?;
    let (to, rest) = point_at(rest)?;
    Some((Edit::Move { v: Name(v), to }, rest))
}

/// The fields of a flip, and the bytes behind them.
#[tactic(auto, unfolding(crate::specs::Edits::flip))]
fn flip_at(bytes: &[u8]) -> Option<(Edit, &[u8])>
    ensures { Finds (λ x. (x.0, x.1.now)) result (flip bytes.now) }
{
    let (a, rest) = u32_at(bytes)?;
    let (b, rest) = u32_at(rest)?;
    Some((
        Edit::Flip {
            a: Name(a),
            b: Name(b),
        },
        rest,
    ))
}

/// The fields of a simplification, and the bytes behind them.
#[tactic(auto, unfolding(crate::specs::Edits::simplify))]
fn simplify_at(bytes: &[u8]) -> Option<(Edit, &[u8])>
    ensures { Finds (λ x. (x.0, x.1.now)) result (simplify bytes.now) }
{
    let (max, rest) = i128_at(bytes)?;
    let (target, rest) = u32_at(rest)?;
    Some((Edit::Simplify { max, target }, rest))
}

/// An edit, and the bytes behind it.
#[tactic(auto, unfolding(crate::specs::Edits::edit))]
fn edit_at(bytes: &[u8]) -> Option<(Edit, &[u8])>
    ensures { Finds (λ x. (x.0, x.1.now)) result (edit bytes.now) }
{
    let (tag, rest) = u8_at(bytes)?;
    match tag {
        1 => collapse_at(rest),
        2 => move_at(rest),
        3 => flip_at(rest),
        4 => simplify_at(rest),
        _ => None,
    }
}

/// Whether a number is the bound of a cost in a script.
#[tactic(auto, unfolding(crate::specs::Edits::is_bound))]
fn is_bound(z: i128) -> bool
    ensures { result ≡ is_bound z }
{
    z >= 0 && z.unsigned_abs() <= MOST_COST
}

/// Whether the edit is one of a script.
#[tactic(auto, unfolding(crate::specs::Edits::is_edit))]
fn is_edit(edit: &Edit) -> bool
    ensures { result ≡ is_edit edit.now }
{
    match edit {
        Edit::Collapse { max, .. } => is_bound(*max),
        Edit::Simplify { max, target } => is_bound(*max) && u64::from(*target) <= MOST_ITEMS,
        Edit::Move { .. } | Edit::Flip { .. } => true,
    }
}

/// Puts an edit at the end.
#[tactic(auto, unfolding(crate::specs::Edits::edit_bytes))]
fn put_edit(out: &mut Vec<u8>, edit: &Edit) -> Result<(), AllocError>
    ensures { OnOk result (out.new.items ≡ out.old.items ++ edit_bytes edit.now) }
{
    match edit {
        Edit::Collapse { u, v, max } => {
            put_u8(out, 1)?;
            put_u32(out, u.0)?;
            put_u32(out, v.0)?;
            put_i128(out, *max)?;
        }
        Edit::Move { v, to } => {
            put_u8(out, 2)?;
            put_u32(out, v.0)?;
            put_point(out, to)?;
        }
        Edit::Flip { a, b } => {
            put_u8(out, 3)?;
            put_u32(out, a.0)?;
            put_u32(out, b.0)?;
        }
        Edit::Simplify { max, target } => {
            put_u8(out, 4)?;
            put_i128(out, *max)?;
            put_u32(out, *target)?;
        }
    }
    Ok(())
}

/// That the numbers of an edit fit their types.
fn edit_known(edit: &Edit)
    ensures { FitsEdit edit.now }
{
    match edit {
        Edit::Collapse { u, v, max } => {
            name_known(u);
            name_known(v);
            let _max = *max;
        }
        Edit::Move { v, to } => {
            name_known(v);
            point_known(to);
        }
        Edit::Flip { a, b } => {
            name_known(a);
            name_known(b);
        }
        Edit::Simplify { max, target } => {
            let _max = *max;
            let _target = *target;
        }
    }
}

/// The edits of a task.
#[derive(Clone, Copy)]
pub struct EditUnits;

impl Units for EditUnits {
    type Item = Edit;

    fn most(len: usize) -> usize {
        len / LEAST_EDIT_BYTES
    }

    ghost reading = { λ _ before. unit is_edit edit };

    ghost fits = { FitsEdit };

    ghost sound = { Always };

    ghost spelled = { edit_bytes };

    fn write(item: &Edit, out: &mut Vec<u8>) -> Result<(), AllocError> {
        put_edit(out, item)
    }

    fn known(item: &Edit) {
        edit_known(item);
    }

    fn read<'a>(
        &self,
        alloc: Global,
        before: &[Edit],
        bytes: &'a [u8],
    ) -> Result<(Edit, &'a [u8]), Stop> {
        let left = bytes.len();
        let Some((edit, rest)) = edit_at(bytes) else {
            return Err(Stop::Bad { left });
        };
        if !is_edit(&edit) {
            return Err(Stop::Bad { left });
        }
        Ok((edit, rest))
    }
}
