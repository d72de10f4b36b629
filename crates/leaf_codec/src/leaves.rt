//! Ascending leaves.

ghost use Rattle.std.specs.Prelude.{◌≡◌, ◌<◌, ◌^◌, ℕ, [], false, nat_eq};
ghost use Rattle.std.specs.Option.{option_map_or};
ghost use Rattle.byte_grammar.specs.Calls.{Gives};
ghost use Rattle.byte_grammar.specs.Reader.{unit, number, many};
ghost use Rattle.byte_grammar.specs.Numbers.{u32_bytes};
ghost use Rattle.byte_grammar.specs.Keeps.{IsAlways as Always};
ghost use Rattle.leaf_codec.specs.Sheets.{leaf_follows};

use byte_grammar::{Stop, Units, put_u32, u32_at, units_at};
use oemm_lists::List;
use oemm_octree::{LeafNo, LeafSet};
use std::alloc::{AllocError, Global};

/// The number of bytes of a leaf.
pub const LEAF_BYTES: usize = 4;

/// Whether the leaf is the one that is left out.
fn is_out(out: Option<LeafNo>, leaf: LeafNo) -> bool
    ensures { result ≡ option_map_or (nat_eq leaf) out false }
{
    match out {
        Some(out) => out == leaf,
        None => false,
    }
}

/// Whether the leaf isn't the one that is left out, and lies above those before it.
#[tactic(auto, unfolding(crate::specs::Sheets::is_above, crate::specs::Sheets::leaf_follows))]
fn leaf_follows(out: Option<LeafNo>, before: &[LeafNo], next: LeafNo) -> bool
    ensures { result ≡ leaf_follows out before.now next }
{
    if is_out(out, next) {
        return false;
    }
    match before.last() {
        None => true,
        Some(last) => *last < next,
    }
}

/// So many leaves that ascend, without the one that is left out, and the bytes behind them.
pub fn leaves_at(
    alloc: Global,
    out: Option<LeafNo>,
    count: u32,
    bytes: &[u8],
) -> Result<(LeafSet, &[u8]), Stop>
    ensures { Gives (λ x. (x.0, x.1.now)) result
        (many (λ before. unit (leaf_follows out before) (number 4)) count [] bytes.now) }
{
    let (leaves, rest) = units_at(alloc, &LeafUnits { out }, count, bytes)?;
    Ok((LeafSet::of(List::from_vec(leaves)), rest))
}

/// Leaves that ascend, without one that may be left out.
#[derive(Clone, Copy)]
pub struct LeafUnits {
    pub out: Option<LeafNo>,
}

impl Units for LeafUnits {
    type Item = LeafNo;

    fn most(len: usize) -> usize {
        len / LEAF_BYTES
    }

    ghost reading = { λ u before. unit (leaf_follows u.out before) (number 4) };

    ghost fits = { λ n. n < 2 ^ 32 };

    ghost sound = { Always };

    ghost spelled = { u32_bytes };

    fn write(item: &LeafNo, out: &mut Vec<u8>) -> Result<(), AllocError> {
        put_u32(out, item.0)
    }

    fn known(item: &LeafNo) {
        let _number = item.0;
    }

    fn read<'a>(
        &self,
        alloc: Global,
        before: &[LeafNo],
        bytes: &'a [u8],
    ) -> Result<(LeafNo, &'a [u8]), Stop> {
        let left = bytes.len();
        let Some((number, rest)) = u32_at(bytes) else {
            return Err(Stop::Bad { left });
        };
        let next = LeafNo(number);
        if !leaf_follows(self.out, before, next) {
            return Err(Stop::Bad { left });
        }
        Ok((next, rest))
    }
}
