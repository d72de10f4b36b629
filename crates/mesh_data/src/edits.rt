//! Edits and their replies, tasks, and the entries of a journal.

use crate::geometry::Tri;
use crate::names::{Lane, Name};
use oemm_lists::{Copied, List};
use oemm_octree::{LeafSet, Point};
use std::alloc::{AllocError, Global};

/// A change that is asked of a mesh.
#[derive(Clone, Copy, Debug, PartialEq, Eq)]
pub enum Edit {
    /// Puts a vertex at another point.
    Move { v: Name, to: Point },
    /// Puts `v` for `u`, where that costs at most `max`: the squared values of the planes of both at the point of `v`,
    /// each the squared distance weighted by four times the squared area of its triangle. A script's bound is 0 to
    /// 2^126.
    Collapse { u: Name, v: Name, max: i128 },
    /// Turns the edge of `a` and `b`, between its two triangles, to their other two vertices.
    Flip { a: Name, b: Name },
    /// Makes the cheapest collapse that can be made, of at most this cost, as long as more than `target` triangles have
    /// all three vertices held. A script's target is 0 to 2^24.
    Simplify { max: i128, target: u32 },
}

/// The edits of a task, in their order.
pub type Edits = List<Edit>;

/// A collapse that a simplification made: `v` was put for `u`, at this cost.
#[derive(Clone, Copy, Debug, PartialEq, Eq)]
pub struct Step {
    pub u: Name,
    pub v: Name,
    pub cost: i128,
}

/// The collapses of a simplification, in their order.
pub type Steps = List<Step>;

/// What an edit answered.
#[derive(Debug, Drop, PartialEq, Eq)]
pub enum Reply {
    /// This vertex isn't in the mesh, or its home lies outside the core.
    Unheld(Name),
    /// This vertex has a neighbour that isn't held.
    Frozen(Name),
    /// The two vertices are one.
    Same,
    /// No triangle has both vertices.
    Apart,
    /// The vertex that is to go has no closed ring, or the edge that is to be flipped has one triangle.
    Border,
    /// Both vertices have this neighbour, which doesn't lie opposite of their edge; it is the least one.
    Link(Name),
    /// The two vertices are those of a closed surface of four triangles.
    Closed,
    /// This triangle would fold; it is the least one.
    Folds(Tri),
    /// The collapse costs this much, which is more than it may.
    Dear(i128),
    /// There is an edge already between these vertices, which lie opposite of the edge that is to be flipped. The
    /// lesser name comes first.
    Edge(Name, Name),
    /// The new point's home lies outside the core.
    Outside,
    /// The edit was made.
    Done,
    /// The collapse was made, at this cost.
    DoneAt(i128),
    /// These collapses were made, and so many triangles are left with all three vertices held.
    Simplified { steps: Steps, left: u32 },
}

/// The replies to the edits of a task, in their order.
pub type Replies = List<Reply>;

/// Edits on one box of the mesh. `low` is at most `high` along each axis.
#[derive(Debug, Drop)]
pub struct Task {
    pub lane: Lane,
    /// The number of the lane's tasks before it.
    pub number: u32,
    pub low: Point,
    pub high: Point,
    pub edits: Edits,
}

/// Tasks, in the order in which they are done.
pub type Tasks = List<Task>;

/// A task that was done, with what its edits answered.
#[derive(Debug, Drop)]
pub struct Entry {
    pub task: Task,
    /// The core had more leaves than a task may check out, and nothing was changed.
    pub wide: bool,
    pub replies: Replies,
    /// The leaves of the core, none where the task was wide.
    pub core: LeafSet,
}

/// The entries of a journal, in the order in which their tasks were done.
pub type Entries = List<Entry>;

/// The tasks of a script, in their order.
#[derive(Debug, Drop)]
pub struct Script {
    pub tasks: Tasks,
}

impl Copied for Edit {
    fn copy(&self, alloc: Global) -> Result<Edit, AllocError> {
        Ok(*self)
    }
}

impl Copied for Step {
    fn copy(&self, alloc: Global) -> Result<Step, AllocError> {
        Ok(*self)
    }
}

impl Copied for Reply {
    fn copy(&self, alloc: Global) -> Result<Reply, AllocError> {
        Ok(match self {
            Reply::Unheld(v) => Reply::Unheld(*v),
            Reply::Frozen(v) => Reply::Frozen(*v),
            Reply::Same => Reply::Same,
            Reply::Apart => Reply::Apart,
            Reply::Border => Reply::Border,
            Reply::Link(w) => Reply::Link(*w),
            Reply::Closed => Reply::Closed,
            Reply::Folds(t) => Reply::Folds(*t),
            Reply::Dear(cost) => Reply::Dear(*cost),
            Reply::Edge(c, d) => Reply::Edge(*c, *d),
            Reply::Outside => Reply::Outside,
            Reply::Done => Reply::Done,
            Reply::DoneAt(cost) => Reply::DoneAt(*cost),
            Reply::Simplified { steps, left } => Reply::Simplified {
                steps: steps.copy(alloc)?,
                left: *left,
            },
        })
    }
}

impl Copied for Task {
    fn copy(&self, alloc: Global) -> Result<Task, AllocError> {
        Ok(Task {
            lane: self.lane,
            number: self.number,
            low: self.low,
            high: self.high,
            edits: self.edits.copy(alloc)?,
        })
    }
}

impl Copied for Entry {
    fn copy(&self, alloc: Global) -> Result<Entry, AllocError> {
        Ok(Entry {
            task: self.task.copy(alloc)?,
            wide: self.wide,
            replies: self.replies.copy(alloc)?,
            core: self.core.copy(alloc)?,
        })
    }
}
