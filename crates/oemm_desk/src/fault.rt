//! What is checked out and committed, and why that is refused.

use checkout_table::Busy;
use mesh_data::{Lane, Replies, Task};
use oemm_blobs::StoreFail;
use oemm_octree::{LeafNo, LeafSet, Point};
use oemm_shelf::ShelfFault;
use sheet_data::Patch;
use std::alloc::AllocError;

/// A core that a lane has checked out.
#[derive(Debug, Drop)]
pub struct Taken {
    pub lane: Lane,
    /// The number of the lane's next task.
    pub number: u32,
    /// The box, of which the core is the set of leaves that it meets.
    pub low: Point,
    pub high: Point,
    pub core: LeafSet,
    /// The core's patch of the stored mesh.
    pub patch: Patch,
}

/// A task whose edits were done on a core that its lane holds.
#[derive(Debug, Drop)]
pub struct Finished {
    pub task: Task,
    /// The replies of its edits, one for each.
    pub replies: Replies,
    pub core: LeafSet,
    /// The core's patch after the edits.
    pub patch: Patch,
}

/// Why a core is not checked out.
#[derive(Debug, Drop)]
pub enum TakeFault {
    /// The core has so many leaves, more than a task may check out.
    Wide { leaves: u32 },
    /// This leaf of the core, the least that is held, is held by this lane.
    Busy { leaf: LeafNo, lane: Lane },
    /// The core's patch can't be read.
    Shelf(ShelfFault),
    /// Memory is wanting.
    Memory,
}

/// Why a task is not committed.
#[derive(Clone, Copy, Debug, PartialEq, Eq)]
pub enum CommitFault {
    /// The task's number isn't that of its lane's next task, which is this one.
    OutOfTurn { expected: u32 },
    /// The journal has so many entries, and no room for another one.
    Full { entries: u32 },
    /// The store failed.
    Store,
    /// Memory is wanting.
    Memory,
}

impl From<AllocError> for TakeFault {
    ghost use Rattle.std.specs.Prelude.{◌≡◌};
    ghost use Rattle.oemm_desk.specs.declared.fault.TakeFault.TheVariants as take;

    ghost from_gives = { λ _ fault. fault ≡ take.Memory };

    fn from(_: AllocError) -> TakeFault {
        TakeFault::Memory
    }
}

impl From<Busy> for TakeFault {
    ghost use Rattle.std.specs.Prelude.{◌≡◌};
    ghost use Rattle.oemm_desk.specs.declared.fault.TakeFault.TheVariants as take;

    ghost from_gives = { λ busy fault. fault ≡ take.Busy busy.leaf busy.lane };

    fn from(busy: Busy) -> TakeFault {
        TakeFault::Busy {
            leaf: busy.leaf,
            lane: busy.lane,
        }
    }
}

impl From<StoreFail> for CommitFault {
    ghost use Rattle.std.specs.Prelude.{◌≡◌};
    ghost use Rattle.oemm_desk.specs.Answered.{commit_fault};

    ghost from_gives = { λ fail fault. fault ≡ commit_fault fail };

    fn from(fail: StoreFail) -> CommitFault {
        match fail {
            StoreFail::Failed => CommitFault::Store,
            StoreFail::Memory => CommitFault::Memory,
        }
    }
}
