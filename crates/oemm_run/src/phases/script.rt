//! The script of a source.

ghost use Rattle.std.specs.Prelude.{◌≡◌};
ghost use Rattle.oemm_run.specs.Outside.{input};
ghost use Rattle.oemm_run.specs.Phases.Script.{end_of_script, ReadsScript};

use crate::end::End;
use edit_script::{ScriptFault, read_script};
use mesh_data::Script;
use oemm_io::Source;
use std::alloc::Global;

/// The end that tells why a script can't be read.
pub fn end_of_script(fault: ScriptFault) -> End
    ensures { result ≡ end_of_script fault }
{
    match fault {
        ScriptFault::Read => End::ReadScript,
        ScriptFault::Syntax { line, why } => End::ScriptText { line, why },
        ScriptFault::TooMany { what, count } => End::Limit { what, count },
        ScriptFault::Memory => End::Memory,
    }
}

/// Reads the script of a source, to its end.
///
/// # Errors
/// The first fault of the text, `TooMany` where a limit is passed, `Read` where the source fails, and `Memory`.
#[tactic(auto, using(crate::proofs::ScriptPhase::reads_script))]
pub fn read_tasks<S: Source>(alloc: Global, source: S) -> (S, Result<Script, ScriptFault>)
    ensures { ReadsScript (input (S.left source) (S.faults source))
        (input (S.left result.0) (S.faults result.0)) result.1 }
{
    read_script(alloc, source)
}
