//! What is said of all scripts.

ghost use Rattle.std.specs.Prelude.{◌≡◌, ℕ, ◌+◌, ◌<◌, ◌≤◌, List, [], ◌∷◌, ◌++◌, length, true, Some, Ok, Err};
ghost use Rattle.oemm_lines.specs.Stream.{told_lines};
ghost use Rattle.edit_script.specs.declared.line.LineMeaning.TheVariants.{TaskLine, EditLine};
ghost use Rattle.edit_script.specs.Grammar.{script_of};
ghost use Rattle.edit_script.specs.Tells.{script_lines, spoken_lines, saying, Tell, TellsScript};

use crate::fault::{ScriptFault, ScriptWhy};
use mesh_data::{Edit, Task};
use oemm_limits::{MOST_EDITS, MOST_LINE_BYTES, MOST_SCRIPT_BYTES, MOST_TASKS, What};
use oemm_lines::{Line, LineFault};
use oemm_octree::Point;

/// A line that is too long is the only fault that can stand behind the lines of a script within its limit of bytes.
pub fn line_limit_law()
    ensures { (bytes : List ℕ) (fault : LineFault) → length bytes ≤ MOST_SCRIPT_BYTES →
        (told_lines true MOST_SCRIPT_BYTES 0 1 bytes).fault ≡ Some fault → (at : ℕ) × (fault ≡ LineFault.TooLong at) }
{}

/// A script is read as these tasks exactly where its lines with words tell them: for each task the line that begins it,
/// and then a line for each of its edits.
pub fn script_laws()
    ensures read { (bytes : List ℕ) (tasks : List Task) → TellsScript bytes tasks → script_of bytes ≡ Ok tasks }
    ensures told { (bytes : List ℕ) (tasks : List Task) → script_of bytes ≡ Ok tasks → TellsScript bytes tasks }
{}

/// The first line with words that can't be taken behind the tasks that the lines with words before it tell: it is
/// faulty by its own words, it is an edit and there is no task, or it is one task or one edit too many.
pub fn script_fault_laws()
    ensures line { (bytes : List ℕ) (lines later : List Line) (l : Line) (tasks : List Task) (why : ScriptWhy) →
        length bytes ≤ MOST_SCRIPT_BYTES → spoken_lines bytes ≡ lines ++ l ∷ later → Tell lines tasks →
        saying l ≡ Err why → script_of bytes ≡ Err (ScriptFault.Syntax l.number why) }
    ensures no_task { (bytes : List ℕ) (later : List Line) (l : Line) (edit : Edit) →
        length bytes ≤ MOST_SCRIPT_BYTES → spoken_lines bytes ≡ l ∷ later →
        saying l ≡ Ok (EditLine edit) → script_of bytes ≡ Err (ScriptFault.Syntax l.number ScriptWhy.NoTask) }
    ensures tasks { (bytes : List ℕ) (lines later : List Line) (l : Line) (tasks : List Task) (lane : ℕ)
        (low high : Point) →
        length bytes ≤ MOST_SCRIPT_BYTES → spoken_lines bytes ≡ lines ++ l ∷ later → Tell lines tasks →
        length tasks ≡ MOST_TASKS →
        saying l ≡ Ok (TaskLine lane low high) →
        script_of bytes ≡ Err (ScriptFault.TooMany What.Tasks (MOST_TASKS + 1)) }
    ensures edits { (bytes : List ℕ) (lines later : List Line) (l : Line) (tasks : List Task) (task : Task)
        (edit : Edit) →
        length bytes ≤ MOST_SCRIPT_BYTES → spoken_lines bytes ≡ lines ++ l ∷ later → Tell lines (tasks ++ task ∷ []) →
        length task.edits ≡ MOST_EDITS →
        saying l ≡ Ok (EditLine edit) → script_of bytes ≡ Err (ScriptFault.TooMany What.Edits (MOST_EDITS + 1)) }
{}

/// A script with too many bytes has no other fault, and a line that is too long is the fault where the lines with words
/// before it tell tasks.
pub fn script_limit_laws()
    ensures bytes { (bytes : List ℕ) → MOST_SCRIPT_BYTES < length bytes →
        script_of bytes ≡ Err (ScriptFault.TooMany What.ScriptBytes MOST_SCRIPT_BYTES) }
    ensures lines { (bytes : List ℕ) (tasks : List Task) (at : ℕ) → length bytes ≤ MOST_SCRIPT_BYTES →
        Tell (spoken_lines bytes) tasks → (script_lines bytes).fault ≡ Some (LineFault.TooLong at) →
        script_of bytes ≡ Err (ScriptFault.TooMany What.LineBytes (MOST_LINE_BYTES + 1)) }
{}
