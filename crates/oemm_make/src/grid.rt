//! Where the vertices of a sample lie and which of them its faces have.

ghost use Rattle.std.specs.Prelude.{◌≡◌, ◌<◌, ◌≤◌, ◌*◌, ◌-◌, slice_get, Some};
ghost use Rattle.mesh_data.specs.Triangles.{IsProper, IsBelow};
ghost use Rattle.oemm_make.specs.Sample.{coordinate, faces, vertex};

use crate::random::height;
use mesh_data::{Name, Point, Tri};

/// The greatest number of vertices along a side.
pub const MOST_SIDE: u32 = 2897;

/// The greatest coordinate.
const LAST: u32 = 32767;

/// The coordinate of the vertices at a place along an axis, of so many places, which lie as far apart as they can.
fn coordinate(side: u32, place: u32) -> i16
    requires least { 2 ≤ side }
    requires most { side ≤ MOST_SIDE }
    requires inside { place < side }
    ensures { result ≡ coordinate side place }
{
    let step = LAST / (side - 1);
    let place_along = step * (2 * place + 1);
    (place_along as i32 - (step * side) as i32) as i16
}

/// The vertex at a place, row by row, with the height for this number.
pub fn vertex(side: u32, place: u32, number: u32) -> Point
    requires least { 2 ≤ side }
    requires most { side ≤ MOST_SIDE }
    requires inside { place < side * side }
    ensures { result ≡ vertex side place number }
{
    Point {
        x: coordinate(side, place % side),
        y: coordinate(side, place / side),
        z: height(number),
    }
}

/// The face at a place: two faces for each square of four neighbouring vertices, row by row.
pub fn face(side: u32, place: u32) -> Tri
    requires least { 2 ≤ side }
    requires most { side ≤ MOST_SIDE }
    requires inside { place < 2 * (side - 1) * (side - 1) }
    ensures exact { slice_get (faces side) place ≡ Some result }
    ensures proper { IsProper result }
    ensures below { IsBelow (side * side) result }
{
    let squares = side - 1;
    let square = place / 2;
    let corner = square / squares * side + square % squares;
    if place % 2 == 0 {
        tri(corner, corner + 1, corner + side)
    } else {
        tri(corner + 1, corner + side + 1, corner + side)
    }
}

fn tri(a: u32, b: u32, c: u32) -> Tri
    ensures { result ≡ record { a = a; b = b; c = c } }
{
    Tri {
        a: Name(a),
        b: Name(b),
        c: Name(c),
    }
}
