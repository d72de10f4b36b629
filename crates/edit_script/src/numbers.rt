//! The names, points, bounds and counts that words write.

ghost use Rattle.std.specs.Prelude.{◌≡◌, ◌^◌, ◌≤◌, IfSome};
ghost use Rattle.edit_script.specs.Line.{coordinate_of, name_of, most_of, triangles_of, point_of, is_box};
ghost use Rattle.edit_script.specs.Ranges.{IsCostBound};

use mesh_data::Name;
use oemm_limits::{MOST_COST, MOST_ITEMS};
use oemm_lines::{integer, unsigned};
use oemm_octree::Point;

/// The coordinate that a word writes.
#[tactic(auto, unfolding(crate::specs::Line::coordinate_of))]
fn coordinate(word: &[u8]) -> Option<i16>
    ensures { result ≡ coordinate_of word.now }
{
    let n = integer(word)?;
    if (-32768..=32767).contains(&n) {
        Some(n as i16)
    } else {
        None
    }
}

/// The point that three words write.
#[tactic(auto, unfolding(crate::specs::Line::point_of))]
pub fn point(x: &[u8], y: &[u8], z: &[u8]) -> Option<Point>
    ensures { result ≡ point_of x.now y.now z.now }
{
    Some(Point {
        x: coordinate(x)?,
        y: coordinate(y)?,
        z: coordinate(z)?,
    })
}

/// The name that a word writes.
#[tactic(auto, unfolding(crate::specs::Line::name_of))]
pub fn name(word: &[u8]) -> Option<Name>
    ensures { result ≡ name_of word.now }
{
    let n = unsigned(word)?;
    if n < 1 << 32 {
        Some(Name(n as u32))
    } else {
        None
    }
}

/// The bound of a cost that a word writes.
#[tactic(auto, unfolding(crate::specs::Line::most_of))]
pub fn most(word: &[u8]) -> Option<i128>
    ensures value { result ≡ most_of word.now }
    ensures within { IfSome result IsCostBound }
{
    let n = unsigned(word)?;
    if n <= MOST_COST {
        Some(n as i128)
    } else {
        None
    }
}

/// The number of triangles that a word writes.
#[tactic(auto, unfolding(crate::specs::Line::triangles_of))]
pub fn triangles(word: &[u8]) -> Option<u32>
    ensures value { result ≡ triangles_of word.now }
    ensures within { IfSome result (λ n. n ≤ MOST_ITEMS) }
{
    let n = unsigned(word)?;
    if n <= u128::from(MOST_ITEMS) {
        Some(n as u32)
    } else {
        None
    }
}

/// Whether the low corner is at most the high one along each axis.
pub fn is_box(low: &Point, high: &Point) -> bool
    ensures { result ≡ is_box low.now high.now }
{
    low.x <= high.x && low.y <= high.y && low.z <= high.z
}
