//! Entries of the journal.

ghost use Rattle.std.specs.Prelude.{◌≡◌, ◌≤◌, ◌<◌, ◌^◌, ◌++◌, ℕ, None, [], length, OnOk, IfOk, true, ◌==◌};
ghost use Rattle.std.specs.List.{flat_map, AllByRecursion};
ghost use Rattle.byte_grammar.specs.Calls.{Finds, Gives};
ghost use Rattle.byte_grammar.specs.Reader.{unit, many, number_in};
ghost use Rattle.byte_grammar.specs.Numbers.{u8_bytes, u16_bytes, u32_bytes};
ghost use Rattle.leaf_codec.specs.Edits.{is_edit, edit, edit_bytes, FitsEdit};
ghost use Rattle.leaf_codec.specs.Replies.{reply_follows, reply, reply_bytes, is_reply, FitsReply};
ghost use Rattle.leaf_codec.specs.Entries.{flag, flag_bytes, corners, box_bytes, is_box, least_leaves, most_leaves, replies_of, entry, entry_bytes, FitsEntry, KeepsEntryRules, IsEntrySpelling};
ghost use Rattle.leaf_codec.specs.declared.formats.TheConstants.{ENTRY_TAG, MOST_UNITS, NEWEST};
ghost use Rattle.oemm_limits.specs.declared.TheConstants.{MOST_EDITS};

use crate::blob::Blob;
use crate::edits::EditUnits;
use crate::formats::{ENTRY_TAG, MOST_UNITS, NEWEST, format_at, put_count};
use crate::leaves::{LeafUnits, leaves_at};
use crate::replies::ReplyUnits;
use byte_grammar::{
    Stop, number_at, put_all, put_u8, put_u16, put_u32, tag_at, u8_in, u32_in, units_at,
};
use geometry_bytes::{point_at, point_known, put_point};
use mesh_data::{Edits, Entry, Lane, Replies, Task};
use oemm_limits::{LAST_LANE, MOST_EDITS};
use oemm_lists::{Bytes, List};
use oemm_octree::Point;
use sheet_data::NumberedEntry;
use std::alloc::{AllocError, Global};

/// The corners of a box, and the bytes behind them.
#[tactic(auto, unfolding(crate::specs::Entries::corners))]
fn corners_at(bytes: &[u8]) -> Option<((Point, Point), &[u8])>
    ensures { Finds (λ x. (x.0, x.1.now)) result (corners bytes.now) }
{
    let (low, rest) = point_at(bytes)?;
    let (high, rest) = point_at(rest)?;
    Some(((low, high), rest))
}

/// Whether the low corner is at most the high one along each axis.
#[tactic(auto, unfolding(crate::specs::Entries::is_box))]
fn is_box(low: &Point, high: &Point) -> bool
    ensures { result ≡ is_box (low.now, high.now) }
{
    low.x <= high.x && low.y <= high.y && low.z <= high.z
}

/// A box, and the bytes behind it.
fn box_at(bytes: &[u8]) -> Result<((Point, Point), &[u8]), Stop>
    ensures { Gives (λ x. (x.0, x.1.now)) result (unit is_box corners bytes.now) }
{
    let left = bytes.len();
    match corners_at(bytes) {
        Some((corners, rest)) => {
            if is_box(&corners.0, &corners.1) {
                Ok((corners, rest))
            } else {
                Err(Stop::Bad { left })
            }
        }
        None => Err(Stop::Bad { left }),
    }
}

/// A flag, and the bytes behind it.
#[tactic(auto, unfolding(crate::specs::Entries::flag))]
fn flag_at(bytes: &[u8]) -> Result<(bool, &[u8]), Stop>
    ensures { Gives (λ x. (x.0, x.1.now)) result (flag bytes.now) }
{
    let (flag, rest) = u8_in(0, 1, bytes)?;
    Ok((flag == 1, rest))
}

/// The number of leaves of a core, which has none where the entry is wide, and the bytes behind it.
fn core_count_at(wide: bool, bytes: &[u8]) -> Result<(u32, &[u8]), Stop>
    ensures { Gives (λ x. (x.0, x.1.now)) result (number_in (least_leaves wide) (most_leaves wide) 4 bytes.now) }
{
    if wide {
        u32_in(0, 0, bytes)
    } else {
        u32_in(1, MOST_UNITS, bytes)
    }
}

/// The edits, and the bytes behind them.
fn edits_at(alloc: Global, count: u32, bytes: &[u8]) -> Result<(Edits, &[u8]), Stop>
    ensures { Gives (λ x. (x.0, x.1.now)) result (many (λ before. unit is_edit edit) count [] bytes.now) }
{
    let (edits, rest) = units_at(alloc, &EditUnits, count, bytes)?;
    Ok((List::from_vec(edits), rest))
}

/// The replies to the edits, none to those of a wide entry, and the bytes behind them.
fn replies_at<'a>(
    alloc: Global,
    wide: bool,
    units: &ReplyUnits,
    count: u32,
    bytes: &'a [u8],
) -> Result<(Replies, &'a [u8]), Stop>
    ensures { Gives (λ x. (x.0, x.1.now)) result
        (many (λ before. unit (reply_follows units.now.edits before) reply) (replies_of wide count) [] bytes.now) }
{
    let replies = if wide { 0 } else { count };
    let (replies, rest) = units_at(alloc, units, replies, bytes)?;
    Ok((List::from_vec(replies), rest))
}

/// An entry, and the bytes behind it.
#[tactic(auto, unfolding(crate::specs::Entries::entry))]
fn entry_at(alloc: Global, bytes: &[u8]) -> Result<(NumberedEntry, &[u8]), Stop>
    ensures { Gives (λ x. (x.0, x.1.now)) result (entry bytes.now) }
{
    let (_tag, rest) = tag_at(ENTRY_TAG, bytes)?;
    let (_format, rest) = format_at(rest)?;
    let (number, rest) = number_at(rest)?;
    let (lane, rest) = u8_in(0, LAST_LANE, rest)?;
    let (task, rest) = number_at(rest)?;
    let (corners, rest) = box_at(rest)?;
    let (wide, rest) = flag_at(rest)?;
    let (leaf_count, rest) = core_count_at(wide, rest)?;
    let (core, rest) = leaves_at(alloc, None, leaf_count, rest)?;
    let (edit_count, rest) = u32_in(0, MOST_EDITS as u32, rest)?;
    let (edits, rest) = edits_at(alloc, edit_count, rest)?;
    let units = ReplyUnits { edits };
    let (replies, rest) = replies_at(alloc, wide, &units, edit_count, rest)?;
    let entry = Entry {
        task: Task {
            lane: Lane(lane),
            number: task,
            low: corners.0,
            high: corners.1,
            edits: units.edits,
        },
        wide,
        replies,
        core,
    };
    Ok((NumberedEntry { number, entry }, rest))
}

/// Puts a flag at the end.
#[tactic(auto, unfolding(crate::specs::Entries::flag_bytes))]
fn put_flag(out: &mut Vec<u8>, flag: bool) -> Result<(), AllocError>
    ensures { OnOk result (out.new.items ≡ out.old.items ++ flag_bytes flag) }
{
    put_u8(out, u8::from(flag))
}

/// Puts a box at the end.
#[tactic(auto, unfolding(crate::specs::Entries::box_bytes))]
fn put_box(out: &mut Vec<u8>, low: &Point, high: &Point) -> Result<(), AllocError>
    ensures { OnOk result (out.new.items ≡ out.old.items ++ box_bytes (low.now, high.now)) }
{
    put_point(out, low)?;
    put_point(out, high)?;
    Ok(())
}

/// Puts what stands before the lists of an entry at the end.
fn put_head(out: &mut Vec<u8>, n: &NumberedEntry) -> Result<(), AllocError>
    ensures { OnOk result (out.new.items ≡ out.old.items
        ++ (u32_bytes ENTRY_TAG ++ (u16_bytes NEWEST ++ (u32_bytes n.now.number ++ (u8_bytes n.now.entry.task.lane
        ++ (u32_bytes n.now.entry.task.number ++ (box_bytes (n.now.entry.task.low, n.now.entry.task.high)
        ++ flag_bytes n.now.entry.wide))))))) }
{
    put_u32(out, ENTRY_TAG)?;
    put_u16(out, NEWEST)?;
    put_u32(out, n.number)?;
    put_u8(out, n.entry.task.lane.0)?;
    put_u32(out, n.entry.task.number)?;
    put_box(out, &n.entry.task.low, &n.entry.task.high)?;
    put_flag(out, n.entry.wide)?;
    Ok(())
}

/// Puts the lists of an entry at the end.
#[tactic(auto, using(byte_grammar::proofs::Items::always))]
fn put_lists(out: &mut Vec<u8>, e: &Entry) -> Result<(), AllocError>
    requires core { length e.now.core ≤ MOST_UNITS }
    requires edits { length e.now.task.edits ≤ MOST_EDITS }
    requires replies { AllByRecursion (λ r. is_reply r ≡ true) e.now.replies }
    ensures text { OnOk result (out.new.items ≡ out.old.items
        ++ (u32_bytes (length e.now.core) ++ (flat_map u32_bytes e.now.core
        ++ (u32_bytes (length e.now.task.edits) ++ (flat_map edit_bytes e.now.task.edits
        ++ flat_map reply_bytes e.now.replies))))) }
    ensures core { OnOk result (AllByRecursion (λ k. k < 2 ^ 32) e.now.core) }
    ensures edits { OnOk result (AllByRecursion FitsEdit e.now.task.edits) }
    ensures replies { OnOk result (AllByRecursion FitsReply e.now.replies) }
{
    put_count(out, e.core.len())?;
    put_all::<LeafUnits>(out, e.core.slice())?;
    put_count(out, e.task.edits.len())?;
    put_all::<EditUnits>(out, e.task.edits.slice())?;
    put_all::<ReplyUnits>(out, e.replies.slice())?;
    Ok(())
}

/// The bytes of an entry.
#[tactic(auto, unfolding(crate::specs::Entries::entry_bytes))]
fn entry_bytes(alloc: Global, n: &NumberedEntry) -> Result<Bytes, AllocError>
    requires core { length n.now.entry.core ≤ MOST_UNITS }
    requires edits { length n.now.entry.task.edits ≤ MOST_EDITS }
    requires replies { AllByRecursion (λ r. is_reply r ≡ true) n.now.entry.replies }
    ensures text { IfOk result (λ bytes. bytes ≡ entry_bytes NEWEST n.now) }
    ensures fits { OnOk result (FitsEntry n.now) }
{
    let mut out = Vec::new(alloc);
    put_head(&mut out, n)?;
    put_lists(&mut out, &n.entry)?;
    point_known(&n.entry.task.low);
    point_known(&n.entry.task.high);
    let _number = n.number;
    let _task = n.entry.task.number;
    Ok(List::from_vec(out))
}

impl Blob for NumberedEntry {
    ghost reading = { entry };

    ghost rules = { KeepsEntryRules };

    ghost spelling = { IsEntrySpelling };

    fn encode(&self, alloc: Global) -> Result<Bytes, AllocError> {
        entry_bytes(alloc, self)
    }

    fn front(alloc: Global, bytes: &[u8]) -> Result<(NumberedEntry, &[u8]), Stop> {
        entry_at(alloc, bytes)
    }

    fn codec_laws() {}
}
