//! A script on a mesh.

ghost use Rattle.oemm_run.specs.Commands.Run.{RunGives};

use crate::end::End;
use crate::io::{Commands, Io};
use crate::phases::mesh::{end_of_mesh, read_mesh};
use crate::phases::out::{end_of_out, write_out};
use crate::phases::report::write_report;
use crate::phases::script::{end_of_script, read_tasks};
use crate::phases::shape::{end_of_shape, start_mesh};
use crate::phases::tasks::outputs_of;
use mesh_out::Form;
use oemm_io::{Failed, Sink, Source};
use std::alloc::Global;

/// Does a script on a mesh, phase by phase: reads both, does the tasks one by one, each where its core has at most
/// `core` leaves, and writes the mesh that they leave in this format, and then the report.
pub fn run_script<M: Source, S: Source, O: Sink, R: Sink>(
    alloc: Global,
    form: Form,
    core: u32,
    io: Io<M, S, O, R>,
) -> (Io<M, S, O, R>, End)
    ensures { RunGives (record { form = form; core = core })
        (⟦<Io<M, S, O, R> as Commands>⟧.outside io) (⟦<Io<M, S, O, R> as Commands>⟧.outside result.0) result.1 }
{
    let (mesh, soup) = read_mesh(alloc, io.mesh);
    let io = Io { mesh, ..io };
    let soup = match soup {
        Ok(soup) => soup,
        Err(fault) => return (io, end_of_mesh(fault)),
    };
    let plain = match start_mesh(alloc, &soup) {
        Ok(plain) => plain,
        Err(fault) => return (io, end_of_shape(fault)),
    };
    let (script, read) = read_tasks(alloc, io.script);
    let io = Io { script, ..io };
    let read = match read {
        Ok(read) => read,
        Err(fault) => return (io, end_of_script(fault)),
    };
    let Ok(outputs) = outputs_of(alloc, plain, core, read.tasks.slice()) else {
        return (io, End::Memory);
    };
    let (out, written) = write_out(alloc, io.out, form, &outputs);
    let io = Io { out, ..io };
    if let Err(fault) = written {
        return (io, end_of_out(fault));
    }
    let (report, written) = write_report(io.report, &outputs.report);
    let io = Io { report, ..io };
    if let Err(Failed) = written {
        return (io, End::WriteReport);
    }
    (io, End::Done)
}
