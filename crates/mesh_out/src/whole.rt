//! A mesh that is written whole.

ghost use Rattle.std.specs.Prelude.{◌≡◌, ◌<◌, ◌≤◌, ◌+◌, ◌-◌, ◌^◌, ◌++◌, length, true, OnOk, OnErr, IsErrOf};
ghost use Rattle.std.specs.List.{All, flat_map};
ghost use Rattle.fault_counts.specs.Counts.{HasCause, TellsFailure};
ghost use Rattle.fault_counts.specs.Told.{Puts, PutsPrefix};
ghost use Rattle.oemm_io.specs.Whole.{StaysOpen};
ghost use Rattle.mesh_data.specs.Triangles.{IsBelow};
ghost use Rattle.mesh_out.specs.Form.{form_vertex, form_face, form_text};
ghost use Rattle.mesh_out.specs.Stream.{after_face, PutsBefore};

use crate::form::{Form, OutFault};
use crate::stream::MeshOut;
use mesh_data::Tri;
use oemm_io::{Failed, Sink};
use oemm_octree::Point;
use std::alloc::Global;

fn put_points<O: Sink>(out: &mut MeshOut<O>, points: &[Point]) -> Result<(), Failed>
    requires { length points.now ≤ out.old.plan.vertices }
    ensures plan { OnOk result
        (out.new.plan ≡ record out.old.plan { vertices = out.old.plan.vertices - length points.now }) }
    ensures ok { OnOk result (PutsBefore (O.written out.old.sink) (O.written out.new.sink)
        (out.old.buffered ++ flat_map (form_vertex out.old.plan.form) points.now) out.new.buffered) }
    ensures err { OnErr result (PutsPrefix (O.written out.old.sink) (O.written out.new.sink)
        (out.old.buffered ++ flat_map (form_vertex out.old.plan.form) points.now)) }
    ensures open { StaysOpen (O.finished out.old.sink) (O.finished out.new.sink) }
    ensures cause { HasCause (O.faults out.old.sink) (O.faults out.new.sink) result }
{
    for p in points {
        out.vertex(*p)?;
    }
    Ok(())
}

fn put_face<O: Sink>(out: &mut MeshOut<O>, t: &Tri) -> Result<(), Failed>
    requires vertices { out.old.plan.vertices ≡ 0 }
    requires faces { 0 < out.old.plan.faces }
    requires names { IsBelow (2 ^ 31) t.now }
    ensures plan { OnOk result (out.new.plan ≡ after_face out.old.plan) }
    ensures ok { OnOk result (PutsBefore (O.written out.old.sink) (O.written out.new.sink)
        (out.old.buffered ++ form_face out.old.plan.form t.now) out.new.buffered) }
    ensures err { OnErr result (PutsBefore (O.written out.old.sink) (O.written out.new.sink)
        out.old.buffered out.new.buffered) }
    ensures open { StaysOpen (O.finished out.old.sink) (O.finished out.new.sink) }
    ensures cause { HasCause (O.faults out.old.sink) (O.faults out.new.sink) result }
{
    out.face(t.a.0, t.b.0, t.c.0)
}

fn put_faces<O: Sink>(out: &mut MeshOut<O>, faces: &[Tri]) -> Result<(), Failed>
    requires vertices { out.old.plan.vertices ≡ 0 }
    requires faces { length faces.now ≤ out.old.plan.faces }
    requires names { All (IsBelow (2 ^ 31)) faces.now }
    ensures plan { OnOk result (out.new.plan ≡ record out.old.plan { faces = out.old.plan.faces - length faces.now }) }
    ensures ok { OnOk result (PutsBefore (O.written out.old.sink) (O.written out.new.sink)
        (out.old.buffered ++ flat_map (form_face out.old.plan.form) faces.now) out.new.buffered) }
    ensures err { OnErr result (PutsPrefix (O.written out.old.sink) (O.written out.new.sink)
        (out.old.buffered ++ flat_map (form_face out.old.plan.form) faces.now)) }
    ensures open { StaysOpen (O.finished out.old.sink) (O.finished out.new.sink) }
    ensures cause { HasCause (O.faults out.old.sink) (O.faults out.new.sink) result }
{
    for t in faces {
        put_face(out, t)?;
    }
    Ok(())
}

/// What follows the header, and the end.
fn put_rest<O: Sink>(
    mut out: MeshOut<O>,
    points: &[Point],
    faces: &[Tri],
) -> (O, Result<(), Failed>)
    requires vertices { out.plan.vertices ≡ length points.now }
    requires faces { out.plan.faces ≡ length faces.now }
    requires names { All (IsBelow (2 ^ 31)) faces.now }
    ensures ok { OnOk result.1 (Puts (O.written out.sink) (O.written result.0)
        (out.buffered ++ (flat_map (form_vertex out.plan.form) points.now ++ flat_map
        (form_face out.plan.form) faces.now))) }
    ensures finished { OnOk result.1 (O.finished result.0 ≡ true) }
    ensures open { OnErr result.1 (StaysOpen (O.finished out.sink) (O.finished result.0)) }
    ensures front { PutsPrefix (O.written out.sink) (O.written result.0)
        (out.buffered ++ (flat_map (form_vertex out.plan.form) points.now ++ flat_map
        (form_face out.plan.form) faces.now)) }
    ensures cause { HasCause (O.faults out.sink) (O.faults result.0) result.1 }
{
    if let Err(fault) = put_points(&mut out, points) {
        return (out.into_sink(), Err(fault));
    }
    if let Err(fault) = put_faces(&mut out, faces) {
        return (out.into_sink(), Err(fault));
    }
    out.end()
}

/// Writes the file of these points and faces, and finishes the sink.
///
/// # Errors
/// `Write` where the sink fails. It then has a prefix of the file, and is finished only if it was
/// before. `Memory` where the block can't be had. The sink then comes back as it was.
pub fn write_mesh<O: Sink>(
    alloc: Global,
    sink: O,
    form: Form,
    points: &[Point],
    faces: &[Tri],
) -> (O, Result<(), OutFault>)
    requires points { length points.now < 2 ^ 32 }
    requires faces { length faces.now < 2 ^ 32 }
    requires names { All (IsBelow (2 ^ 31)) faces.now }
    ensures ok { OnOk result.1 (Puts (O.written sink) (O.written result.0) (form_text form points.now faces.now)) }
    ensures finished { OnOk result.1 (O.finished result.0 ≡ true) }
    ensures open { OnErr result.1 (StaysOpen (O.finished sink) (O.finished result.0)) }
    ensures front { PutsPrefix (O.written sink) (O.written result.0) (form_text form points.now faces.now) }
    ensures memory { IsErrOf result.1 OutFault.Memory → result.0 ≡ sink }
    ensures cause { TellsFailure OutFault.Write (O.faults sink) (O.faults result.0) result.1 }
{
    match MeshOut::new(alloc, sink, form, points.len() as u32, faces.len() as u32) {
        Ok(out) => {
            let (sink, done) = put_rest(out, points, faces);
            (sink, done.map_err(OutFault::from))
        }
        Err((sink, fault)) => (sink, Err(fault)),
    }
}
