//! The header, vertices and faces of a PLY file, as bytes in a block.

ghost use Rattle.std.specs.Prelude.{◌≡◌, ◌≤◌, ◌+◌, ◌++◌};
ghost use Rattle.mesh_out.specs.Ply.{ply_opening, ply_vertices, ply_faces, ply_head, short, int, ply_vertex, ply_face};

use crate::block::{Block, RECORD_ROOM};
use mesh_data::Tri;
use oemm_io::BLOCK;
use oemm_octree::Point;

#[tactic(auto, unfolding(crate::specs::Ply::ply_opening))]
fn push_opening(block: &mut Block)
    requires { block.old.used + 40 ≤ BLOCK }
    ensures left { block.new.left ≡ block.old.left ++ ply_opening }
    ensures used { block.new.used ≤ block.old.used + 40 }
{
    block.push(b"ply\nformat binary_little_endian 1.0\n");
}

#[tactic(auto, unfolding(crate::specs::Ply::ply_vertices))]
fn push_vertices(block: &mut Block, count: u32)
    requires { block.old.used + 80 ≤ BLOCK }
    ensures left { block.new.left ≡ block.old.left ++ ply_vertices count }
    ensures used { block.new.used ≤ block.old.used + 80 }
{
    block.push(b"element vertex ");
    block.push_number(count, b'\n');
    block.push(b"property short x\nproperty short y\nproperty short z\n");
}

#[tactic(auto, unfolding(crate::specs::Ply::ply_faces))]
fn push_faces(block: &mut Block, count: u32)
    requires { block.old.used + 80 ≤ BLOCK }
    ensures left { block.new.left ≡ block.old.left ++ ply_faces count }
    ensures used { block.new.used ≤ block.old.used + 80 }
{
    block.push(b"element face ");
    block.push_number(count, b'\n');
    block.push(b"property list uchar int vertex_indices\n");
}

/// The header of a file with these numbers of vertices and faces.
pub fn push_ply_head(block: &mut Block, vertices: u32, faces: u32)
    requires { block.old.used + RECORD_ROOM ≤ BLOCK }
    ensures { block.new.left ≡ block.old.left ++ ply_head vertices faces }
{
    push_opening(block);
    push_vertices(block, vertices);
    push_faces(block, faces);
    block.push(b"end_header\n");
}

#[tactic(auto, unfolding(crate::specs::Ply::short))]
fn push_short(block: &mut Block, x: i16)
    requires { block.old.used + 2 ≤ BLOCK }
    ensures left { block.new.left ≡ block.old.left ++ short x }
    ensures used { block.new.used ≡ block.old.used + 2 }
{
    block.push(&x.to_le_bytes());
}

/// Puts the six bytes of a vertex.
pub fn push_ply_vertex(block: &mut Block, p: &Point)
    requires { block.old.used + RECORD_ROOM ≤ BLOCK }
    ensures { block.new.left ≡ block.old.left ++ ply_vertex p.now }
{
    push_short(block, p.x);
    push_short(block, p.y);
    push_short(block, p.z);
}

#[tactic(auto, unfolding(crate::specs::Ply::int))]
fn push_int(block: &mut Block, i: u32)
    requires { block.old.used + 4 ≤ BLOCK }
    ensures left { block.new.left ≡ block.old.left ++ int i }
    ensures used { block.new.used ≡ block.old.used + 4 }
{
    block.push(&i.to_le_bytes());
}

/// Puts the count of three and the indices of a face.
pub fn push_ply_face(block: &mut Block, t: &Tri)
    requires { block.old.used + RECORD_ROOM ≤ BLOCK }
    ensures { block.new.left ≡ block.old.left ++ ply_face t.now }
{
    block.push(&[3]);
    push_int(block, t.a.0);
    push_int(block, t.b.0);
    push_int(block, t.c.0);
}
