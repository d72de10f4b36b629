//! How far a mesh was read.

ghost use Rattle.std.specs.Prelude.{◌≡◌, None, Ok, IfOk, OnOk};
ghost use Rattle.std.specs.Option.{option_map};
ghost use Rattle.mesh_items.specs.Reading.{fault_alone, IsComplete};
ghost use Rattle.oemm_lines.specs.Stream.{UsesSource};
ghost use Rattle.off_reader.specs.Reader.{filled_left, given_of, rest_of, stepped_reading, GivesNext, IsCounted, Pops};

use super::body::next_item;
use super::head::begin;
use mesh_items::{Item, MeshFault};
use oemm_io::Source;
use oemm_lines::Lines;

/// How far a mesh was read.
#[derive(Clone, Copy)]
pub struct Progress {
    /// The number of vertices and that of faces, once they were read.
    pub counts: Option<(u32, u32)>,
    /// How many vertices and faces were read.
    pub done: u32,
}

/// The next item and how far the mesh was read with it, or None behind the last face.
#[tactic(auto, using(crate::proofs::ItemSteps::given_more, crate::proofs::ItemSteps::given_all, crate::proofs::ItemSteps::rest_done, crate::proofs::ItemSteps::complete_done))]
pub fn step<S: Source>(
    lines: &mut Lines<S>,
    p: Progress,
) -> Result<Option<(Item, Progress)>, MeshFault>
    requires calm { lines.old.fault ≡ None }
    requires counted { IsCounted p.counts p.done }
    ensures told { Pops stepped_reading fault_alone (option_map (rest_of p) (filled_left S.left lines.old)) result
        (filled_left S.left lines.new) }
    ensures given { IfOk result (GivesNext p) }
    ensures complete { IsComplete (given_of p None) → (result ≡ Ok None) × (lines.new ≡ lines.old) }
    ensures calm { OnOk result (lines.new.fault ≡ None) }
    ensures uses { UsesSource S.left S.faults MeshFault.Read lines.old lines.new result }
{
    let Some((vertices, faces)) = p.counts else {
        let (v, f) = begin(lines)?;
        let behind = Progress {
            counts: Some((v, f)),
            done: 0,
        };
        return Ok(Some((Item::Counts { v, f }, behind)));
    };
    if p.done == vertices + faces {
        return Ok(None);
    }
    let item = next_item(lines, vertices, faces, p.done)?;
    let done = p.done + 1;
    Ok(Some((item, Progress { done, ..p })))
}
