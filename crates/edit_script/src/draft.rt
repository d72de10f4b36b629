//! The tasks of a script that is read line by line.

ghost use Rattle.std.specs.Prelude.{◌≡◌, ◌<◌, ◌≤◌, ◌^◌, ℕ, List, OnOk, IfErr};
ghost use Rattle.oemm_lines.specs.Stream.{texts_of, IsPlaced};
ghost use Rattle.edit_script.specs.Line.{line_says};
ghost use Rattle.edit_script.specs.Grammar.{with_task, with_edit, after_line};
ghost use Rattle.edit_script.specs.Ranges.{IsBox, IsEdit, AreTasks, IsDraft};
ghost use Rattle.edit_script.specs.Script.{StopsBy};

use crate::fault::{ScriptFault, ScriptWhy};
use crate::line::{LineMeaning, line_meaning};
use mesh_data::{Edit, Lane, Script, Task};
use oemm_limits::{LAST_LANE, MOST_EDITS, MOST_TASKS, What};
use oemm_lines::Line;
use oemm_lists::List;
use oemm_octree::Point;
use std::alloc::Global;
use std::marker::Model;

/// The number of lanes.
const LANES: usize = LAST_LANE as usize + 1;

/// The tasks read so far, and how many of them each lane has.
#[derive(Drop)]
pub struct Draft {
    tasks: Vec<Task>,
    counts: [u32; LANES],
}

impl Model for Draft {
    ghost use Rattle.std.specs.Prelude.{List};
    ghost use Rattle.mesh_data.specs.declared.edits.Task.{Task};
    ghost use Rattle.edit_script.specs.Ranges.{IsDraft};

    ghost Value = { List Task };

    ghost view = { λ d. d.tasks.items };

    ghost invariant = { λ d. IsDraft d.counts d.tasks.items };
}

impl Draft {
    ghost use Rattle.std.specs.Prelude.{[]};

    /// No task.
    pub fn new(alloc: Global) -> Draft
        ensures { result ≡ [] }
    {
        Draft {
            tasks: Vec::new(alloc),
            counts: [0; LANES],
        }
    }

    /// Reads the next line. After an error it isn't said which tasks there are.
    pub fn read_line(&mut self, alloc: Global, line: &Line) -> Result<(), ScriptFault>
        requires number { line.now.number < 2 ^ 32 }
        requires places { IsPlaced line.now }
        ensures ok { OnOk result (after_line line.now.number self.old (line_says (texts_of line.now)) ≡ Ok self.new) }
        ensures err { IfErr result
            (λ fault. StopsBy fault (after_line line.now.number self.old (line_says (texts_of line.now)))) }
    {
        let number = line.number as u32;
        match line_meaning(line) {
            Ok(LineMeaning::TaskLine { lane, low, high }) => self.begin(alloc, lane, low, high),
            Ok(LineMeaning::EditLine { edit }) => push_edit(&mut self.tasks, number, edit),
            Err(why) => Err(ScriptFault::Syntax { line: number, why }),
        }
    }

    /// Begins a task, the number of which counts the tasks of its lane.
    #[tactic(auto, using(crate::proofs::Tasks::kept_by_task), unfolding(crate::specs::Grammar::with_task))]
    fn begin(&mut self, alloc: Global, lane: u8, low: Point, high: Point) -> Result<(), ScriptFault>
        requires lane { lane ≤ LAST_LANE }
        requires ordered { IsBox low high }
        ensures ok { OnOk result (with_task self.old lane low high ≡ Ok self.new) }
        ensures err { IfErr result (λ fault. StopsBy fault (with_task self.old lane low high)) }
    {
        if self.tasks.len() >= MOST_TASKS {
            return Err(ScriptFault::TooMany {
                what: What::Tasks,
                count: MOST_TASKS as u64 + 1,
            });
        }
        let place = usize::from(lane);
        self.tasks.push(Task {
            lane: Lane(lane),
            number: self.counts[place],
            low,
            high,
            edits: List::new(alloc),
        })?;
        self.counts[place] += 1;
        Ok(())
    }

    /// The script of the tasks.
    pub fn finish(self) -> Script
        ensures tasks { result.tasks ≡ self }
        ensures ranges { AreTasks result.tasks }
    {
        let Draft { tasks, .. } = self;
        Script {
            tasks: List::from_vec(tasks),
        }
    }
}

/// Puts an edit behind those of the last task, in the line with this number.
#[tactic(auto, using(crate::proofs::Edits::with_edit_none, crate::proofs::Edits::with_edit_full, crate::proofs::Edits::with_edit_ok))]
fn push_edit(tasks: &mut Vec<Task>, number: u32, edit: Edit) -> Result<(), ScriptFault>
    requires { IsEdit edit }
    ensures ok { OnOk result (with_edit number tasks.old.items edit ≡ Ok tasks.new.items) }
    ensures err { IfErr result (λ fault. StopsBy fault (with_edit number tasks.old.items edit)) }
    ensures kept { (counts : List ℕ) → IsDraft counts tasks.old.items → IsDraft counts tasks.new.items }
{
    let Some(last) = tasks.len().checked_sub(1) else {
        return Err(ScriptFault::Syntax {
            line: number,
            why: ScriptWhy::NoTask,
        });
    };
    let task = &mut tasks[last];
    if task.edits.len() >= MOST_EDITS {
        return Err(ScriptFault::TooMany {
            what: What::Edits,
            count: MOST_EDITS as u64 + 1,
        });
    }
    if task.edits.push(edit).is_err() {
        return Err(ScriptFault::Memory);
    }
    Ok(())
}
