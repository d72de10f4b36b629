//! The tasks of a script, and what is written of them.

ghost use Rattle.std.specs.Prelude.{◌≡◌, ◌≤◌, ◌^◌, ◌++◌, length, All, IfOk, OnOk};
ghost use Rattle.std.specs.String.{string_bytes};
ghost use Rattle.mesh_data.specs.Mesh.{points_of};
ghost use Rattle.mesh_data.specs.Triangles.{IsBelow};
ghost use Rattle.mesh_data.specs.Work.{play};
ghost use Rattle.mesh_out.specs.MeshBytes.{faces_of};
ghost use Rattle.commit_journal.specs.Text.{journal_text};
ghost use Rattle.edit_script.specs.Ranges.{AreTasks, IsTask};
ghost use Rattle.oemm_run.specs.Commands.Run.{one_leaf};
ghost use Rattle.oemm_run.specs.Phases.Report.{report_text};
ghost use Rattle.oemm_run.specs.Report.{summary};
ghost use Rattle.oemm_run.specs.Outputs.{IsWritable};

use crate::summary::put_summary;
use commit_journal::journal_text;
use mesh_data::{Entries, Task, Tris};
use mesh_model::PlainMesh;
use mesh_out::renumber;
use oemm_limits::MOST_ITEMS;
use oemm_lists::{Bytes, List};
use oemm_octree::{Cell, Cells, Points};
use std::alloc::{AllocError, Global};

/// What is written of the mesh that the tasks leave.
#[derive(Drop)]
pub struct Outputs {
    pub points: Points,
    /// The faces, with the places of their vertices among the points.
    pub faces: Tris,
    pub report: Bytes,
}

/// An octree of one leaf.
fn one_leaf(alloc: Global) -> Result<Cells, AllocError>
    ensures { IfOk result (λ cells. cells ≡ one_leaf) }
{
    let mut cells = Vec::with_capacity(alloc, 1)?;
    cells.push(Cell {
        depth: 0,
        x: 0,
        y: 0,
        z: 0,
    })?;
    Ok(List::from_vec(cells))
}

/// Does the tasks one by one, and answers the journal.
fn play_tasks(
    alloc: Global,
    mesh: &mut PlainMesh,
    cells: &Cells,
    limit: u32,
    tasks: &[Task],
) -> Result<Entries, AllocError>
    requires leaf { cells.now ≡ one_leaf }
    requires each { All IsTask tasks.now }
    ensures journal { IfOk result (λ journal. journal ≡ (play one_leaf limit mesh.old tasks.now).journal) }
    ensures mesh { OnOk result (mesh.new ≡ (play one_leaf limit mesh.old tasks.now).mesh) }
    ensures len { IfOk result (λ journal. length journal ≡ length tasks.now) }
{
    let mut journal = Vec::with_capacity(alloc, tasks.len())?;
    for task in tasks {
        journal.push(mesh.do_task(alloc, cells, limit, task)?)?;
    }
    Ok(List::from_vec(journal))
}

/// The faces of a mesh's file: as many as its triangles, of places of its points.
fn faces_of(alloc: Global, mesh: &PlainMesh) -> Result<Tris, AllocError>
    ensures faces { IfOk result (λ faces. faces ≡ faces_of mesh.now) }
    ensures count { IfOk result (λ faces. length faces ≡ length mesh.now.tris) }
    ensures few { IfOk result (λ faces. length faces ≤ MOST_ITEMS) }
    ensures below { IfOk result (All (IsBelow (length (points_of mesh.now)))) }
{
    let names = mesh.names(alloc)?;
    let tris = mesh.tris(alloc)?;
    renumber(alloc, &names, tris.slice())
}

/// The line of a mesh's counts, of which those of its points and faces are known.
#[tactic(auto, using(crate::proofs::Pieces::summary_of))]
fn summary_of(
    alloc: Global,
    mesh: &PlainMesh,
    points: usize,
    faces: usize,
) -> Result<String, AllocError>
    requires points { points ≡ length (points_of mesh.now) }
    requires faces { faces ≡ length mesh.now.tris }
    ensures { IfOk result (λ line. string_bytes line ≡ summary mesh.now) }
{
    let euler = mesh.euler(alloc)?;
    let border = mesh.border(alloc)?;
    let mut line = String::new(alloc);
    put_summary(&mut line, points, faces, euler, border.len())?;
    Ok(line)
}

/// The journal's text, and a line behind it.
fn report_of(alloc: Global, journal: &Entries, line: &str) -> Result<Bytes, AllocError>
    requires { length journal.now ≤ 2 ^ 32 }
    ensures { IfOk result (λ bytes. bytes ≡ journal_text 0 journal.now ++ line.now) }
{
    let mut text = journal_text(alloc, 0, journal)?.into_vec();
    text.extend_from_slice(line.as_bytes())?;
    Ok(List::from_vec(text))
}

/// Does the tasks on the mesh, each where its core has at most `limit` leaves, and answers what is written of them.
///
/// # Errors
/// Want of memory.
pub fn outputs_of(
    alloc: Global,
    mut mesh: PlainMesh,
    limit: u32,
    tasks: &[Task],
) -> Result<Outputs, AllocError>
    requires { AreTasks tasks.now }
    ensures points { IfOk result (λ outputs. outputs.points ≡ points_of (play one_leaf limit mesh tasks.now).mesh) }
    ensures faces { IfOk result (λ outputs. outputs.faces ≡ faces_of (play one_leaf limit mesh tasks.now).mesh) }
    ensures writable { IfOk result IsWritable }
    ensures report { IfOk result (λ outputs. outputs.report ≡ report_text (play one_leaf limit mesh tasks.now)) }
{
    let cells = one_leaf(alloc)?;
    let journal = play_tasks(alloc, &mut mesh, &cells, limit, tasks)?;
    let points = mesh.points(alloc)?;
    let faces = faces_of(alloc, &mesh)?;
    let line = summary_of(alloc, &mesh, points.len(), faces.len())?;
    Ok(Outputs {
        points,
        faces,
        report: report_of(alloc, &journal, line.as_str())?,
    })
}
