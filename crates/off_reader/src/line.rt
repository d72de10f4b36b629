//! What stands on a line.

ghost use Rattle.std.specs.Prelude.{◌≡◌, ◌+◌, ◌≤◌, ◌<◌, slice_get, IfErr, IfOk, IfSome, MatchResult};
ghost use Rattle.mesh_data.specs.Triangles.{IsProper, IsBelow};
ghost use Rattle.off_reader.specs.Grammar as grammar;
ghost use Rattle.off_reader.specs.Grammar.{word_as};
ghost use Rattle.oemm_lines.specs.Stream.{texts_of, IsPlaced};
ghost use Rattle.mesh_items.specs.Results.{IsOfText};
ghost use Rattle.mesh_items.specs.Progress.{AreLimited, MayFollow};

use super::values::{coordinate_of, corners_of, count_of, index_of};
use mesh_data::Tri;
use mesh_items::{Item, MeshFault, MeshWhy, fault_at, triangle_of};
use oemm_limits::{MOST_ITEMS, What};
use oemm_lines::Line;
use oemm_octree::Point;

/// The word at this place of a line.
fn word_at(line: &Line, place: usize) -> Result<&[u8], MeshFault>
    requires { IsPlaced line.now }
    ensures { MatchResult result (λ word. slice_get (texts_of line.now) place ≡ Some word.now)
        (λ fault. (slice_get (texts_of line.now) place ≡ None) × (fault ≡ MeshFault.Text line.now.at MeshWhy.Words)) }
{
    line.word(place).ok_or(fault_at(line.at, MeshWhy::Words))
}

/// Whether the first word of a line is `OFF`.
pub fn is_head(line: &Line) -> bool
    requires { IsPlaced line.now }
    ensures { result ≡ grammar.is_head (slice_get (texts_of line.now) 0) }
{
    line.word(0) == Some(b"OFF".as_slice())
}

/// The count at this place of a line.
#[tactic(auto, unfolding(crate::specs::Grammar::word_as))]
fn count_at(line: &Line, place: usize, what: What) -> Result<u32, MeshFault>
    requires { IsPlaced line.now }
    ensures exact { result ≡ word_as (grammar.count_of line.now.at what) place line.now }
    ensures fault { IfErr result IsOfText }
    ensures most { IfOk result (λ n. n ≤ MOST_ITEMS) }
{
    count_of(word_at(line, place)?, line.at, what)
}

/// The number of vertices at this place of a line, and that of faces behind it.
#[tactic(auto, unfolding(crate::specs::Grammar::counts_of))]
pub fn counts_of(line: &Line, place: usize) -> Result<(u32, u32), MeshFault>
    requires placed { IsPlaced line.now }
    requires front { place < 2 }
    ensures exact { result ≡ grammar.counts_of place line.now }
    ensures fault { IfErr result IsOfText }
    ensures most { IfOk result (λ counts. AreLimited counts.0 counts.1) }
{
    let vertices = count_at(line, place, What::Vertices)?;
    let faces = count_at(line, place + 1, What::Faces)?;
    Ok((vertices, faces))
}

/// The coordinate of this vertex at this place of a line.
#[tactic(auto, unfolding(crate::specs::Grammar::word_as))]
fn coordinate_at(line: &Line, place: usize, vertex: u32) -> Result<i16, MeshFault>
    requires { IsPlaced line.now }
    ensures exact { result ≡ word_as (grammar.coordinate_of line.now.at vertex) place line.now }
    ensures fault { IfErr result IsOfText }
{
    coordinate_of(word_at(line, place)?, line.at, vertex)
}

/// The point that a line of coordinates says; a fault names the vertex.
#[tactic(auto, unfolding(crate::specs::Grammar::vertex_of))]
fn vertex_of(line: &Line, vertex: u32) -> Result<Point, MeshFault>
    requires { IsPlaced line.now }
    ensures exact { result ≡ grammar.vertex_of vertex line.now }
    ensures fault { IfErr result IsOfText }
{
    let x = coordinate_at(line, 0, vertex)?;
    let y = coordinate_at(line, 1, vertex)?;
    let z = coordinate_at(line, 2, vertex)?;
    Ok(Point { x, y, z })
}

/// The number of this face's corners, which is three.
#[tactic(auto, unfolding(crate::specs::Grammar::word_as))]
fn corners_at_front(line: &Line, face: u32) -> Result<u32, MeshFault>
    requires { IsPlaced line.now }
    ensures exact { result ≡ word_as (grammar.corners_of line.now.at face) 0 line.now }
    ensures fault { IfErr result IsOfText }
{
    corners_of(word_at(line, 0)?, line.at, face)
}

/// What the index at this place of a line means.
#[tactic(auto, unfolding(crate::specs::Grammar::word_as))]
fn index_at(line: &Line, place: usize, vertices: u32) -> Result<Option<u32>, MeshFault>
    requires { IsPlaced line.now }
    ensures exact { result ≡ word_as (grammar.index_of line.now.at vertices) place line.now }
    ensures fault { IfErr result IsOfText }
    ensures below { IfOk result (λ name. IfSome name (λ n. n < vertices)) }
{
    index_of(word_at(line, place)?, line.at, vertices)
}

/// The triangle of this face among so many vertices.
#[tactic(auto, unfolding(crate::specs::Grammar::face_of))]
fn face_of(line: &Line, vertices: u32, face: u32) -> Result<Tri, MeshFault>
    requires { IsPlaced line.now }
    ensures exact { result ≡ grammar.face_of vertices face line.now }
    ensures fault { IfErr result IsOfText }
    ensures proper { IfOk result IsProper }
    ensures below { IfOk result (IsBelow vertices) }
{
    corners_at_front(line, face)?;
    let i = index_at(line, 1, vertices)?;
    let j = index_at(line, 2, vertices)?;
    let k = index_at(line, 3, vertices)?;
    triangle_of(line.at, face, i, j, k)
}

/// The vertex or face on a line that follows so many others.
#[tactic(auto, unfolding(crate::specs::Grammar::item_of))]
pub fn item_of(line: &Line, vertices: u32, done: u32) -> Result<Item, MeshFault>
    requires { IsPlaced line.now }
    ensures exact { result ≡ grammar.item_of vertices done line.now }
    ensures fault { IfErr result IsOfText }
    ensures next { IfOk result (MayFollow vertices done) }
{
    if done < vertices {
        Ok(Item::Vertex(vertex_of(line, done)?))
    } else {
        Ok(Item::Face(face_of(line, vertices, done - vertices)?))
    }
}
