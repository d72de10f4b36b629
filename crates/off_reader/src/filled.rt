//! The lines that have words.

ghost use Rattle.std.specs.Prelude.{◌≡◌, ◌≤◌, ◌<◌, None, IfOk, OnOk};
ghost use Rattle.oemm_lines.specs.Stream.{IsPlaced, UsesSource};
ghost use Rattle.off_reader.specs.Grammar.{has_words};
ghost use Rattle.off_reader.specs.Reader.{filled_left, led_by, with_line, ended_by, Pops};

use mesh_items::{MeshFault, MeshWhy, fault_at, fault_of_lines};
use oemm_io::Source;
use oemm_lines::{Line, Lines};

/// The next line, where a further one has to come: the end of the source is a fault too.
#[tactic(auto, using(crate::proofs::LineSteps::filled_line, crate::proofs::LineSteps::filled_cut, crate::proofs::LineSteps::filled_fault, mesh_items::proofs::Failures::failure_told_on))]
fn next_line<S: Source>(lines: &mut Lines<S>) -> Result<Line, MeshFault>
    requires { lines.old.fault ≡ None }
    ensures told { Pops with_line ended_by (filled_left S.left lines.old) result (filled_left S.left lines.new) }
    ensures calm { OnOk result (lines.new.fault ≡ None) }
    ensures placed { IfOk result IsPlaced }
    ensures rises { OnOk result ((lines.old.at < lines.new.at) × (lines.new.at ≤ lines.new.budget)) }
    ensures uses { UsesSource S.left S.faults MeshFault.Read lines.old lines.new result }
    ensures same { lines.new.budget ≡ lines.old.budget }
{
    match lines.next() {
        Ok(Some(line)) => Ok(line),
        Ok(None) => Err(fault_at(lines.at(), MeshWhy::Cut)),
        Err(fault) => Err(fault_of_lines(fault)),
    }
}

/// Whether there is a word on the line.
fn has_words(line: &Line) -> bool
    ensures { result ≡ has_words line.now }
{
    line.words.len() > 0
}

/// The next line with words.
///
/// # Errors
/// The fault that stands in its place.
#[tactic(auto, using(crate::proofs::LineSteps::skipped, crate::proofs::LineSteps::first_filled))]
pub fn next_filled<S: Source>(lines: &mut Lines<S>) -> Result<Line, MeshFault>
    requires { lines.old.fault ≡ None }
    ensures told { Pops led_by ended_by (filled_left S.left lines.old) result (filled_left S.left lines.new) }
    ensures calm { OnOk result (lines.new.fault ≡ None) }
    ensures placed { IfOk result IsPlaced }
    ensures uses { UsesSource S.left S.faults MeshFault.Read lines.old lines.new result }
{
    loop {
        let line = next_line(lines)?;
        if has_words(&line) {
            return Ok(line);
        }
    }
}
