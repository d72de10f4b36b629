//! The file of the mesh that is left.

ghost use Rattle.std.specs.Prelude.{◌≡◌};
ghost use Rattle.mesh_out.specs.Form.{form_text};
ghost use Rattle.oemm_run.specs.Outside.{output};
ghost use Rattle.oemm_run.specs.Phases.Out.{end_of_out, WritesMesh};
ghost use Rattle.oemm_run.specs.Outputs.{IsWritable};

use super::tasks::Outputs;
use crate::end::End;
use mesh_out::{Form, OutFault, write_mesh};
use oemm_io::Sink;
use std::alloc::Global;

/// The end that tells why a mesh can't be written.
pub fn end_of_out(fault: OutFault) -> End
    ensures { result ≡ end_of_out fault }
{
    match fault {
        OutFault::Write => End::WriteOut,
        OutFault::Memory => End::Memory,
    }
}

/// Writes the mesh, all of it, and finishes the sink.
///
/// # Errors
/// `Write` where the sink fails, and `Memory`, before the first byte.
#[tactic(auto, using(crate::proofs::OutPhase::writes_mesh))]
pub fn write_out<O: Sink>(
    alloc: Global,
    sink: O,
    form: Form,
    outputs: &Outputs,
) -> (O, Result<(), OutFault>)
    requires { IsWritable outputs.now }
    ensures { WritesMesh (output (O.written sink) (O.faults sink) (O.finished sink))
        (output (O.written result.0) (O.faults result.0) (O.finished result.0))
        (form_text form outputs.now.points outputs.now.faces) result.1 }
{
    let points = outputs.points.slice();
    write_mesh(alloc, sink, form, points, outputs.faces.slice())
}
