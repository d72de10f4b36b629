//! The mesh of a source.

ghost use Rattle.std.specs.Prelude.{◌≡◌, IfOk, IfSome};
ghost use Rattle.fault_counts.specs.Counts.{TellsFailure};
ghost use Rattle.mesh_items.specs.Reading.{soup};
ghost use Rattle.oemm_run.specs.Outside.{input, HasTaken};
ghost use Rattle.oemm_run.specs.Phases.Mesh.{end_of_mesh, ReadsMesh};
ghost use Rattle.oemm_run.specs.Soup.{soup_of, limited, reading_in, GivesSoup, IsSoup};

use super::prefix::take_prefix;
use super::soup::soup_within;
use crate::end::End;
use mesh_data::Soup;
use mesh_items::MeshFault;
use oemm_io::{Headed, Source};
use oemm_limits::MOST_MESH_BYTES;
use oemm_lines::Lines;
use off_reader::OffReader;
use ply_reader::{PlyReader, is_ply};
use std::alloc::Global;

/// The end that tells why a mesh can't be read.
pub fn end_of_mesh(fault: MeshFault) -> End
    ensures { result ≡ end_of_mesh fault }
{
    match fault {
        MeshFault::Read => End::ReadMesh,
        MeshFault::Text { at, why } => End::MeshText { at, why },
        MeshFault::TooMany { what, count } => End::Limit { what, count },
        MeshFault::Memory => End::Memory,
    }
}

/// Reads the mesh of a source, in the format that its first bytes tell. Nothing behind the last face is looked at.
///
/// # Errors
/// The first fault of the text, `TooMany` where a limit is passed, `Read` where the source fails, and `Memory`.
#[tactic(auto, using(crate::proofs::MeshPhase::reads_mesh))]
pub fn read_mesh<M: Source>(alloc: Global, source: M) -> (M, Result<Soup, MeshFault>)
    ensures { ReadsMesh (input (M.left source) (M.faults source))
        (input (M.left result.0) (M.faults result.0)) result.1 }
{
    take_mesh(alloc, source)
}

/// The points and faces of a mesh, in the format that its first bytes tell.
#[tactic(auto, using(crate::proofs::Takings::taken_behind))]
fn take_mesh<M: Source>(alloc: Global, mut source: M) -> (M, Result<Soup, MeshFault>)
    ensures told { IfSome (M.left source) (λ bytes. GivesSoup result.1 (soup_of bytes)) }
    ensures ranges { IfOk result.1 IsSoup }
    ensures taken { HasTaken (M.left source) (M.left result.0) }
    ensures cause { TellsFailure MeshFault.Read (M.faults source) (M.faults result.0) result.1 }
{
    let mut front = [0; 3];
    let Ok(count) = take_prefix(&mut source, &mut front) else {
        return (source, Err(MeshFault::Read));
    };
    let is_ply = is_ply(&front[..count]);
    let headed = Headed::new(source, front, count as u8);
    let (headed, soup) = read_soup_in(alloc, headed, is_ply);
    (headed.into_source(), soup)
}

/// The points and faces of a mesh in binary PLY, or in OFF.
#[tactic(auto, using(mesh_soup::proofs::Takings::taken_none))]
fn read_soup_in<S: Source>(alloc: Global, source: S, is_ply: bool) -> (S, Result<Soup, MeshFault>)
    ensures told { IfSome (S.left source) (λ bytes. GivesSoup result.1 (soup (limited (reading_in is_ply bytes)))) }
    ensures ranges { IfOk result.1 IsSoup }
    ensures taken { HasTaken (S.left source) (S.left result.0) }
    ensures cause { TellsFailure MeshFault.Read (S.faults source) (S.faults result.0) result.1 }
{
    let lines = match Lines::new(alloc, source, MOST_MESH_BYTES, !is_ply) {
        Ok(lines) => lines,
        Err((source, _)) => return (source, Err(MeshFault::Memory)),
    };
    if is_ply {
        let mut reader = PlyReader::new(lines);
        let soup = soup_within(alloc, &mut reader);
        (reader.into_source(), soup)
    } else {
        let mut reader = OffReader::new(lines);
        let soup = soup_within(alloc, &mut reader);
        (reader.into_source(), soup)
    }
}
