//! The line that begins an entry, and the lines of edits.

ghost use Rattle.std.specs.Prelude.{◌≡◌};
ghost use Rattle.byte_grammar.specs.Calls.{Finds};
ghost use Rattle.leaf_codec.specs.Entries.{is_box};
ghost use Rattle.journal_reader.specs.Lines.{bound, coordinate_at_end, corner_at_end, edit, head, head_fields, moved, collapsed, flipped, simplified};

use crate::lines::EntryHead;
use crate::numbers::{coordinate_before, cost_before, name_before, number_before, point_before};
use mesh_data::{Edit, Lane, Name};
use oemm_limits::{LAST_LANE, MOST_ITEMS};
use oemm_octree::Point;

/// The last coordinate of a box and whether the entry is wide, and the bytes behind the line.
#[tactic(auto, unfolding(crate::specs::Lines::coordinate_at_end))]
fn coordinate_at_end(bytes: &[u8]) -> Option<((i16, bool), &[u8])>
    ensures { Finds (λ x. (x.0, x.1.now)) result (coordinate_at_end bytes.now) }
{
    if let Some((z, rest)) = coordinate_before(b" wide\n", bytes) {
        return Some(((z, true), rest));
    }
    let (z, rest) = coordinate_before(b"\n", bytes)?;
    Some(((z, false), rest))
}

/// The high corner of a box and whether the entry is wide, and the bytes behind the line.
#[tactic(auto, unfolding(crate::specs::Lines::corner_at_end))]
fn corner_at_end(bytes: &[u8]) -> Option<((Point, bool), &[u8])>
    ensures { Finds (λ x. (x.0, x.1.now)) result (corner_at_end bytes.now) }
{
    let (x, rest) = coordinate_before(b" ", bytes)?;
    let (y, rest) = coordinate_before(b" ", rest)?;
    let ((z, wide), rest) = coordinate_at_end(rest)?;
    Some(((Point { x, y, z }, wide), rest))
}

/// What stands behind `commit`, and the bytes behind the line.
#[tactic(auto, unfolding(crate::specs::Lines::head_fields))]
fn head_fields(bytes: &[u8]) -> Option<(EntryHead, &[u8])>
    ensures { Finds (λ x. (x.0, x.1.now)) result (head_fields bytes.now) }
{
    let (number, rest) = name_before(b" lane ", bytes)?;
    let (lane, rest) = number_before(b" number ", u128::from(LAST_LANE), rest)?;
    let (task, rest) = name_before(b" box ", rest)?;
    let (low, rest) = point_before(b" ", rest)?;
    let ((high, wide), rest) = corner_at_end(rest)?;
    let head = EntryHead {
        number,
        lane: Lane(lane as u8),
        task,
        low,
        high,
        wide,
    };
    Some((head, rest))
}

/// Whether the low corner is at most the high one along each axis.
#[tactic(auto, unfolding(leaf_codec::specs::Entries::is_box))]
fn is_box(low: &Point, high: &Point) -> bool
    ensures { result ≡ is_box (low.now, high.now) }
{
    low.x <= high.x && low.y <= high.y && low.z <= high.z
}

/// What stands behind `commit`, where the corners are those of a box, and the bytes behind the line.
#[tactic(auto, unfolding(crate::specs::Lines::head))]
pub fn head_at(bytes: &[u8]) -> Option<(EntryHead, &[u8])>
    ensures { Finds (λ x. (x.0, x.1.now)) result (head bytes.now) }
{
    match head_fields(bytes) {
        Some((head, rest)) => {
            if is_box(&head.low, &head.high) {
                Some((head, rest))
            } else {
                None
            }
        }
        None => None,
    }
}

/// A bound of a cost, and the bytes behind the text that stands behind it.
#[tactic(auto, unfolding(crate::specs::Lines::bound))]
fn bound<'a>(text: &[u8], bytes: &'a [u8]) -> Option<(i128, &'a [u8])>
    ensures { Finds (λ x. (x.0, x.1.now)) result (bound text.now bytes.now) }
{
    let (max, rest) = cost_before(text, bytes)?;
    if max >= 0 { Some((max, rest)) } else { None }
}

/// What stands behind `move`, and the bytes behind the line.
#[tactic(auto, unfolding(crate::specs::Lines::moved))]
fn moved(bytes: &[u8]) -> Option<(Edit, &[u8])>
    ensures { Finds (λ x. (x.0, x.1.now)) result (moved bytes.now) }
{
    let (v, rest) = name_before(b" ", bytes)?;
    let (to, rest) = point_before(b"\n", rest)?;
    Some((Edit::Move { v: Name(v), to }, rest))
}

/// What stands behind `collapse`, and the bytes behind the line.
#[tactic(auto, unfolding(crate::specs::Lines::collapsed))]
fn collapsed(bytes: &[u8]) -> Option<(Edit, &[u8])>
    ensures { Finds (λ x. (x.0, x.1.now)) result (collapsed bytes.now) }
{
    let (u, rest) = name_before(b" ", bytes)?;
    let (v, rest) = name_before(b" ", rest)?;
    let (max, rest) = bound(b"\n", rest)?;
    let (u, v) = (Name(u), Name(v));
    Some((Edit::Collapse { u, v, max }, rest))
}

/// What stands behind `flip`, and the bytes behind the line.
#[tactic(auto, unfolding(crate::specs::Lines::flipped))]
fn flipped(bytes: &[u8]) -> Option<(Edit, &[u8])>
    ensures { Finds (λ x. (x.0, x.1.now)) result (flipped bytes.now) }
{
    let (a, rest) = name_before(b" ", bytes)?;
    let (b, rest) = name_before(b"\n", rest)?;
    let (a, b) = (Name(a), Name(b));
    Some((Edit::Flip { a, b }, rest))
}

/// What stands behind `simplify`, and the bytes behind the line.
#[tactic(auto, unfolding(crate::specs::Lines::simplified))]
fn simplified(bytes: &[u8]) -> Option<(Edit, &[u8])>
    ensures { Finds (λ x. (x.0, x.1.now)) result (simplified bytes.now) }
{
    let (max, rest) = bound(b" ", bytes)?;
    let (target, rest) = number_before(b"\n", u128::from(MOST_ITEMS), rest)?;
    let target = target as u32;
    Some((Edit::Simplify { max, target }, rest))
}

/// The line of an edit, and the bytes behind it.
#[tactic(auto, unfolding(crate::specs::Lines::edit))]
pub fn edit_at(bytes: &[u8]) -> Option<(Edit, &[u8])>
    ensures { Finds (λ x. (x.0, x.1.now)) result (edit bytes.now) }
{
    if let Some(rest) = bytes.strip_prefix(b"move ") {
        moved(rest)
    } else if let Some(rest) = bytes.strip_prefix(b"collapse ") {
        collapsed(rest)
    } else if let Some(rest) = bytes.strip_prefix(b"flip ") {
        flipped(rest)
    } else if let Some(rest) = bytes.strip_prefix(b"simplify ") {
        simplified(rest)
    } else {
        None
    }
}
