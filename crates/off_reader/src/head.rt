//! The first line of a mesh and its counts.

ghost use Rattle.std.specs.Prelude.{◌≡◌, None, IfOk, OnOk};
ghost use Rattle.std.specs.Option.{option_map};
ghost use Rattle.mesh_items.specs.Reading.{fault_alone};
ghost use Rattle.oemm_lines.specs.Stream.{UsesSource};
ghost use Rattle.mesh_items.specs.Progress.{AreLimited};
ghost use Rattle.off_reader.specs.Grammar.{mesh_reading};
ghost use Rattle.off_reader.specs.Reader.{filled_left, counts_at, counts_before, Pops};

use super::filled::next_filled;
use super::line::{counts_of, is_head};
use mesh_items::{MeshFault, MeshWhy, fault_at};
use oemm_io::Source;
use oemm_lines::Lines;

/// The number of vertices and that of faces on the next line with words.
fn next_counts<S: Source>(lines: &mut Lines<S>) -> Result<(u32, u32), MeshFault>
    requires { lines.old.fault ≡ None }
    ensures told { Pops counts_before fault_alone (option_map counts_at (filled_left S.left lines.old)) result
        (filled_left S.left lines.new) }
    ensures calm { OnOk result (lines.new.fault ≡ None) }
    ensures limited { IfOk result (λ counts. AreLimited counts.0 counts.1) }
    ensures uses { UsesSource S.left S.faults MeshFault.Read lines.old lines.new result }
{
    let line = next_filled(lines)?;
    counts_of(&line, 0)
}

/// The number of vertices and that of faces of a mesh from its first line on.
#[tactic(auto, using(crate::proofs::ItemSteps::head_alone))]
pub fn begin<S: Source>(lines: &mut Lines<S>) -> Result<(u32, u32), MeshFault>
    requires { lines.old.fault ≡ None }
    ensures told { Pops counts_before fault_alone (option_map mesh_reading (filled_left S.left lines.old)) result
        (filled_left S.left lines.new) }
    ensures calm { OnOk result (lines.new.fault ≡ None) }
    ensures limited { IfOk result (λ counts. AreLimited counts.0 counts.1) }
    ensures uses { UsesSource S.left S.faults MeshFault.Read lines.old lines.new result }
{
    let line = next_filled(lines)?;
    if !is_head(&line) {
        return Err(fault_at(line.at, MeshWhy::Head));
    }
    if line.words.len() > 1 {
        counts_of(&line, 1)
    } else {
        next_counts(lines)
    }
}
