//! The objects of the outside.

ghost use Rattle.oemm_run.specs.Commands.Run.{RunGives};
ghost use Rattle.oemm_run.specs.Outside.{Outside};

use crate::commands::run::run_script;
use crate::end::End;
use mesh_out::Form;
use oemm_io::{Sink, Source};
use std::alloc::Global;

/// What a command reads and writes.
#[derive(Drop)]
pub struct Io<M, S, O, R> {
    /// Where the mesh is read from: OFF, or PLY by its first three bytes.
    pub mesh: M,
    /// Where the tasks are read from.
    pub script: S,
    /// The file of the mesh that the script leaves.
    pub out: O,
    /// The journal, and a line of counts.
    pub report: R,
}

/// Objects that commands work on. Each command gives them back with its end.
pub trait Commands {
    /// What contracts see of the objects.
    ghost outside: { Self → Outside };

    /// Does a script on a mesh, each task where its core has at most `core` leaves, and writes the mesh in this format,
    /// and then the report.
    fn run_script(self, alloc: Global, form: Form, core: u32) -> (Self, End)
        ensures { RunGives (record { form = form; core = core }) (outside self) (outside result.0) result.1 };
}

impl<M: Source, S: Source, O: Sink, R: Sink> Commands for Io<M, S, O, R> {
    ghost outside = { λ io. record {
      mesh = record { left = M.left io.mesh; faults = M.faults io.mesh };
      script = record { left = S.left io.script; faults = S.faults io.script };
      out = record { written = O.written io.out; faults = O.faults io.out; finished = O.finished io.out };
      report = record { written = R.written io.report; faults = R.faults io.report; finished = R.finished io.report };
    } };

    fn run_script(self, alloc: Global, form: Form, core: u32) -> (Self, End) {
        run_script(alloc, form, core, self)
    }
}
