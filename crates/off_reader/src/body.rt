//! The vertices and faces of a mesh.

ghost use Rattle.std.specs.Prelude.{◌≡◌, ◌+◌, ◌<◌, None, IfOk, OnOk};
ghost use Rattle.std.specs.Option.{option_map};
ghost use Rattle.mesh_items.specs.Reading.{fault_alone};
ghost use Rattle.oemm_lines.specs.Stream.{UsesSource};
ghost use Rattle.mesh_items.specs.Progress.{MayFollow};
ghost use Rattle.off_reader.specs.Reader.{filled_left, body_at, item_before, Pops};

use super::filled::next_filled;
use super::line::item_of;
use mesh_items::{Item, MeshFault};
use oemm_io::Source;
use oemm_lines::Lines;

/// The vertex or face that follows so many others.
pub fn next_item<S: Source>(
    lines: &mut Lines<S>,
    vertices: u32,
    faces: u32,
    done: u32,
) -> Result<Item, MeshFault>
    requires calm { lines.old.fault ≡ None }
    requires more { done < vertices + faces }
    ensures told { Pops (item_before vertices faces done) fault_alone
        (option_map (body_at vertices faces done) (filled_left S.left lines.old)) result
        (filled_left S.left lines.new) }
    ensures calm { OnOk result (lines.new.fault ≡ None) }
    ensures follows { IfOk result (MayFollow vertices done) }
    ensures uses { UsesSource S.left S.faults MeshFault.Read lines.old lines.new result }
{
    let line = next_filled(lines)?;
    item_of(&line, vertices, done)
}
