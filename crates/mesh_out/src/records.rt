//! Headers, vertices and faces, as bytes in a block.

ghost use Rattle.std.specs.Prelude.{◌≡◌, ◌≤◌, ◌+◌, ◌++◌};
ghost use Rattle.mesh_out.specs.Form.{form_head, form_vertex, form_face};
ghost use Rattle.mesh_out.specs.Off.{off_head, point_line, face_line};

use crate::block::{Block, RECORD_ROOM};
use crate::form::Form;
use crate::ply::{push_ply_face, push_ply_head, push_ply_vertex};
use mesh_data::Tri;
use oemm_io::BLOCK;
use oemm_octree::Point;

fn push_off_head(block: &mut Block, vertices: u32, faces: u32)
    requires { block.old.used + RECORD_ROOM ≤ BLOCK }
    ensures { block.new.left ≡ block.old.left ++ off_head vertices faces }
{
    block.push(b"OFF\n");
    block.push_number(vertices, b' ');
    block.push_number(faces, b' ');
    block.push(b"0\n");
}

fn push_point_line(block: &mut Block, p: &Point)
    requires { block.old.used + RECORD_ROOM ≤ BLOCK }
    ensures { block.new.left ≡ block.old.left ++ point_line p.now }
{
    block.push_number(p.x, b' ');
    block.push_number(p.y, b' ');
    block.push_number(p.z, b'\n');
}

fn push_face_line(block: &mut Block, t: &Tri)
    requires { block.old.used + RECORD_ROOM ≤ BLOCK }
    ensures { block.new.left ≡ block.old.left ++ face_line t.now }
{
    block.push(b"3 ");
    block.push_number(t.a.0, b' ');
    block.push_number(t.b.0, b' ');
    block.push_number(t.c.0, b'\n');
}

/// The header of a file with these numbers of vertices and faces.
pub fn push_head(block: &mut Block, form: Form, vertices: u32, faces: u32)
    requires { block.old.used + RECORD_ROOM ≤ BLOCK }
    ensures { block.new.left ≡ block.old.left ++ form_head form vertices faces }
{
    match form {
        Form::Off => push_off_head(block, vertices, faces),
        Form::Ply => push_ply_head(block, vertices, faces),
    }
}

/// Puts a vertex in this form.
pub fn push_vertex(block: &mut Block, form: Form, p: &Point)
    requires { block.old.used + RECORD_ROOM ≤ BLOCK }
    ensures { block.new.left ≡ block.old.left ++ form_vertex form p.now }
{
    match form {
        Form::Off => push_point_line(block, p),
        Form::Ply => push_ply_vertex(block, p),
    }
}

/// Puts a face in this form.
pub fn push_face(block: &mut Block, form: Form, t: &Tri)
    requires { block.old.used + RECORD_ROOM ≤ BLOCK }
    ensures { block.new.left ≡ block.old.left ++ form_face form t.now }
{
    match form {
        Form::Off => push_face_line(block, t),
        Form::Ply => push_ply_face(block, t),
    }
}
