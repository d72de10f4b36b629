//! The plane of a triangle, and the fold test.

ghost use Rattle.std.specs.Prelude.{◌≡◌, ◌&&◌, ◌==◌, ◌≤◌, ◌<◌, ◌^◌, ◌+ℤ◌, ◌-ℤ◌, ◌*ℤ◌, nat_abs};
ghost use Rattle.oemm_octree.specs.declared.points.Point.{Point};
ghost use Rattle.mesh_data.specs.Planes.{plane_of, normal_x, normal_y, normal_z, dot, folds};
ghost use Rattle.oemm_plane.specs.PlaneBounds.{IsNormalBounded};

use mesh_data::Plane;
use oemm_octree::Point;

/// How far the first coordinate lies above the second.
fn difference(a: i16, b: i16) -> i64
    ensures value { result ≡ a -ℤ b }
    ensures small { nat_abs result < 2 ^ 16 }
{
    i64::from(a) - i64::from(b)
}

/// The product of two differences of coordinates.
fn area(a: i64, b: i64) -> i64
    requires first { nat_abs a < 2 ^ 16 }
    requires second { nat_abs b < 2 ^ 16 }
    ensures value { result ≡ a *ℤ b }
    ensures small { nat_abs result < 2 ^ 32 }
{
    a * b
}

/// Twice the signed area of the triangle with the corners (a, d), (b, e) and (c, f).
fn twice_area(a: i16, d: i16, b: i16, e: i16, c: i16, f: i16) -> i64
    ensures value { result ≡ ((b -ℤ a) *ℤ (f -ℤ d)) -ℤ ((e -ℤ d) *ℤ (c -ℤ a)) }
    ensures small { nat_abs result < 2 ^ 32 }
{
    area(difference(b, a), difference(f, d)) - area(difference(e, d), difference(c, a))
}

/// The x of the normal of a triangle.
fn normal_x(a: &Point, b: &Point, c: &Point) -> i64
    ensures value { result ≡ normal_x a.now b.now c.now }
    ensures small { nat_abs result < 2 ^ 32 }
{
    twice_area(a.y, a.z, b.y, b.z, c.y, c.z)
}

/// The y of the normal of a triangle.
fn normal_y(a: &Point, b: &Point, c: &Point) -> i64
    ensures value { result ≡ normal_y a.now b.now c.now }
    ensures small { nat_abs result < 2 ^ 32 }
{
    twice_area(a.z, a.x, b.z, b.x, c.z, c.x)
}

/// The z of the normal of a triangle.
fn normal_z(a: &Point, b: &Point, c: &Point) -> i64
    ensures value { result ≡ normal_z a.now b.now c.now }
    ensures small { nat_abs result < 2 ^ 32 }
{
    twice_area(a.x, a.y, b.x, b.y, c.x, c.y)
}

/// A component of a normal times a coordinate.
fn volume(n: i64, x: i16) -> i64
    requires { nat_abs n < 2 ^ 32 }
    ensures value { result ≡ n *ℤ x }
    ensures small { nat_abs result ≤ 2 ^ 47 }
{
    n * i64::from(x)
}

/// The dot product of a normal and a point.
fn dot(nx: i64, ny: i64, nz: i64, p: &Point) -> i64
    requires x_small { nat_abs nx < 2 ^ 32 }
    requires y_small { nat_abs ny < 2 ^ 32 }
    requires z_small { nat_abs nz < 2 ^ 32 }
    ensures value { result ≡ dot nx ny nz p.now }
    ensures small { nat_abs result < 2 ^ 49 }
{
    volume(nx, p.x) + volume(ny, p.y) + volume(nz, p.z)
}

/// The plane of the triangle of three points. Each component of its normal is below 2^32 in size, and its offset
/// below 2^49.
#[tactic(auto, unfolding(mesh_data::specs::Planes::plane_of))]
pub fn plane_of(a: &Point, b: &Point, c: &Point) -> Plane
    ensures value { result ≡ plane_of a.now b.now c.now }
    ensures normal { IsNormalBounded result }
    ensures offset { nat_abs result.d < 2 ^ 49 }
{
    let nx = normal_x(a, b, c);
    let ny = normal_y(a, b, c);
    let nz = normal_z(a, b, c);
    Plane {
        nx,
        ny,
        nz,
        d: -dot(nx, ny, nz, a),
    }
}

/// The product of a component of one normal and of another.
fn product(a: i64, b: i64) -> i128
    requires first { nat_abs a < 2 ^ 32 }
    requires second { nat_abs b < 2 ^ 32 }
    ensures value { result ≡ a *ℤ b }
    ensures small { nat_abs result < 2 ^ 64 }
{
    i128::from(a) * i128::from(b)
}

/// The dot product of two normals.
fn normals_dot(old: &Plane, new: &Plane) -> i128
    requires old_normal { IsNormalBounded old.now }
    requires new_normal { IsNormalBounded new.now }
    ensures { result ≡ ((old.now.nx *ℤ new.now.nx) +ℤ (old.now.ny *ℤ new.now.ny)) +ℤ (old.now.nz *ℤ new.now.nz) }
{
    product(old.nx, new.nx) + product(old.ny, new.ny) + product(old.nz, new.nz)
}

/// Whether a normal is zero.
fn is_zero(l: &Plane) -> bool
    ensures { result ≡ ((nat_abs l.now.nx == 0) && (nat_abs l.now.ny == 0) && (nat_abs l.now.nz == 0)) }
{
    l.nx == 0 && l.ny == 0 && l.nz == 0
}

/// Whether a triangle with the old plane folds when it gets the new one: its old normal isn't zero, and the new one
/// turns from it by a right angle or more, or is zero.
#[tactic(auto, unfolding(mesh_data::specs::Planes::folds))]
pub fn folds(old: &Plane, new: &Plane) -> bool
    requires old_normal { IsNormalBounded old.now }
    requires new_normal { IsNormalBounded new.now }
    ensures { result ≡ folds old.now new.now }
{
    !is_zero(old) && normals_dot(old, new) <= 0
}

#[cfg(test)]
mod tests {
    use super::*;

    fn point(x: i16, y: i16, z: i16) -> Point {
        Point { x, y, z }
    }

    #[test]
    fn planes_are_the_same_from_each_corner(rt: HostRuntime) {
        let low = point(-32768, -32768, -32768);
        let right = point(32767, -32768, -32768);
        let back = point(-32768, 32767, -32768);
        for (a, b, c, nx, ny, nz, d) in [
            (low, right, back, 0, 0, 4294836225, 140733193420800),
            (right, back, low, 0, 0, 4294836225, 140733193420800),
            (back, low, right, 0, 0, 4294836225, 140733193420800),
            (low, back, right, 0, 0, -4294836225, -140733193420800),
            (low, right, low, 0, 0, 0, 0),
            (point(0, 0, 1), point(2, 0, 0), point(0, 3, 0), 3, 2, 6, -6),
        ] {
            assert_eq!(rt;
                plane_of(&a, &b, &c),
                Plane { nx, ny, nz, d },
                "{a:?} {b:?} {c:?}"
            );
        }
    }

    #[test]
    fn turned_triangles_fold(rt: HostRuntime) {
        let low = point(0, 0, 0);
        let right = point(5, 0, 0);
        let back = point(0, 5, 0);
        let up = point(0, 0, 5);
        for (old, new, want) in [
            ((low, low, back), (low, right, back), false),
            ((low, right, back), (low, right, back), false),
            ((low, right, back), (low, back, right), true),
            ((low, right, back), (low, right, up), true),
            ((low, right, back), (low, low, back), true),
        ] {
            assert_eq!(rt;
                folds(
                    &plane_of(&old.0, &old.1, &old.2),
                    &plane_of(&new.0, &new.1, &new.2)
                ),
                want,
                "{old:?} {new:?}"
            );
        }
    }
}
