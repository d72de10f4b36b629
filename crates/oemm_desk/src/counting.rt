//! How many tasks of each lane there are.

ghost use Rattle.std.specs.Prelude.{◌≡◌, ◌≢◌, ◌<◌, ◌≤◌, ◌+◌, ℕ, length, slice_index, All, IfOk};
ghost use Rattle.oemm_limits.specs.declared.TheConstants.{LAST_LANE, MOST_TASKS};
ghost use Rattle.oemm_shelf.specs.Shown.{CountLanes};

use mesh_data::{Entry, Lane};
use oemm_limits::LAST_LANE;
use std::alloc::{AllocError, Global};

/// The number of lanes.
const LANES: usize = LAST_LANE as usize + 1;

/// Counts one task more of the lane.
pub fn count_task(lanes: &mut Vec<u32>, lane: Lane)
    requires lane { lane < length lanes.old.items }
    requires room { slice_index lanes.old.items lane < MOST_TASKS }
    ensures lanes { length lanes.new.items ≡ length lanes.old.items }
    ensures one { slice_index lanes.new.items lane ≡ slice_index lanes.old.items lane + 1 }
    ensures others { (k : ℕ) → k ≢ lane → slice_index lanes.new.items k ≡ slice_index lanes.old.items k }
{
    lanes[lane.0 as usize] += 1;
}

/// The numbers of the lanes' next tasks behind these entries.
pub fn count_lanes(alloc: Global, entries: &[Entry]) -> Result<Vec<u32>, AllocError>
    requires few { length entries.now ≤ MOST_TASKS }
    requires lanes { All (λ e. e.task.lane ≤ LAST_LANE) entries.now }
    ensures { IfOk result (λ lanes. CountLanes lanes.items entries.now) }
{
    let mut lanes = vec![in alloc; 0u32; LANES]?;
    for entry in entries {
        count_task(&mut lanes, entry.task.lane);
    }
    Ok(lanes)
}
