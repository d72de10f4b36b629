//! A store's mesh, written as a file.

ghost use Rattle.std.specs.Prelude.{◌≡◌, ◌⊎◌, length, true, OnOk, OnErr, IsErrOf};
ghost use Rattle.fault_counts.specs.Counts.{TellsFailure};
ghost use Rattle.oemm_io.specs.Whole.{StaysOpen};
ghost use Rattle.oemm_shelf.specs.Shelves.{IsSame, Reads};
ghost use Rattle.leaf_export.specs.Exported.{Exports, or_out};

use crate::fault::ExportFault;
use crate::reading::read_parts;
use mesh_out::{Form, OutFault, write_mesh};
use oemm_blobs::Blobs;
use oemm_io::Sink;
use oemm_shelf::{Shelf, ShelfFault};
use std::alloc::Global;

/// What is answered of a file that is written.
fn answer(done: Result<(), OutFault>) -> Result<(), ExportFault>
    ensures { result ≡ or_out done }
{
    match done {
        Ok(()) => Ok(()),
        Err(why) => Err(ExportFault::from(why)),
    }
}

/// Writes the mesh of a store into a sink, and finishes it: the vertices by the homes of their points and then by their
/// names, the faces by the leaves that keep them and then by their names. An index is a vertex's place in that order. So
/// over a sound store it is exactly the file of the stored mesh over its octree.
///
/// Each leaf's present sheet is read once, one at a time, before the first byte is put. 10 bytes are kept of each vertex,
/// 4 of each name below the index's number of vertices, and 12 of each face. For N vertices and F faces it takes time of
/// about N log N and F.
///
/// # Errors
/// `Shelf` with `Absent` or `Damaged` and the key of the first leaf of which it holds; else with a `Clash` of the sheets:
/// by the least name that two vertices have, or more planes than a mesh has, or more faces than a mesh has, with their
/// number, or, as the shape `Vertex`, the first name of a face that no vertex has; or with `Store` where the store fails.
/// The sink is then as it was, and so it is after `Memory`. `Write` where the sink fails: it then has a prefix of the
/// file, and is finished only if it was before.
pub fn export<B: Blobs, O: Sink>(
    alloc: Global,
    shelf: &mut Shelf<B>,
    form: Form,
    sink: O,
) -> (O, Result<(), ExportFault>)
    ensures exports { Exports (B.store shelf.old.blobs).content shelf.old.index shelf.old.versions form
        (O.written sink) (O.written result.0) result.1 }
    ensures finished { OnOk result.1 (O.finished result.0 ≡ true) }
    ensures open { OnErr result.1 (StaysOpen (O.finished sink) (O.finished result.0)) }
    ensures untouched { OnErr result.1 (IsErrOf result.1 ExportFault.Write ⊎ (result.0 ≡ sink)) }
    ensures same { IsSame shelf.old shelf.new }
    ensures reads { Reads (length shelf.old.index.cells) (B.store shelf.old.blobs) (B.store shelf.new.blobs) }
    ensures store { TellsFailure (ExportFault.Shelf ShelfFault.Store)
        (B.store shelf.old.blobs).faults (B.store shelf.new.blobs).faults result.1 }
    ensures cause { TellsFailure ExportFault.Write (O.faults sink) (O.faults result.0) result.1 }
{
    match read_parts(alloc, shelf) {
        Ok((points, faces)) => {
            let (sink, done) = write_mesh(alloc, sink, form, points.slice(), faces.slice());
            (sink, answer(done))
        }
        Err(why) => (sink, Err(ExportFault::from(why))),
    }
}
