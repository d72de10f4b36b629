//! The ten sums of a list of planes, which measure a collapse.

ghost use Rattle.std.specs.Prelude.{◌≡◌, ◌+◌, ◌*◌, ◌^◌, ◌≤◌, ◌<◌, ◌+ℤ◌, ◌*ℤ◌, ◌≤ℤ◌, nat_abs, pos, List};
ghost use Rattle.mesh_data.specs.declared.planes.Plane.{Plane};
ghost use Rattle.mesh_data.specs.Planes.{squares, Sums, no_sums, products, added, sums_of, sums_value, most_planes};
ghost use Rattle.mesh_data.specs.Quads.{sums_in};

use mesh_data::{Plane, Quad};
use oemm_octree::Point;

/// The sums of products of the coefficients of planes, with whole numbers of 128 bits. None of the calls can
/// fail, and none takes memory.
pub trait QuadSums {
    ghost sums: { Self → Sums };

    /// The sums of no plane.
    fn zero() -> Self
        ensures { sums result ≡ no_sums };

    /// Adds a plane. The parts of its normal are below 2^32 in size, and its offset is below 2^49, as those of
    /// each triangle of the grid are.
    fn add_plane(&mut self, plane: &Plane)
        requires room { (sums self.old).planes < most_planes }
        requires nx { nat_abs plane.now.nx < 2 ^ 32 }
        requires ny { nat_abs plane.now.ny < 2 ^ 32 }
        requires nz { nat_abs plane.now.nz < 2 ^ 32 }
        requires d { nat_abs plane.now.d < 2 ^ 49 }
        ensures { sums self.new ≡ added (products plane.now) (sums self.old) };

    /// Adds all planes of another.
    fn merge(&mut self, other: &Self)
        requires { (sums self.old).planes + (sums other.now).planes ≤ most_planes }
        ensures { sums self.new ≡ added (sums self.old) (sums other.now) };

    /// The value at a point. Of the sums of a list of planes it is the sum of the squared values of the planes.
    fn value_at(&self, p: &Point) -> i128
        ensures value { result ≡ sums_value (sums self.now) p.now }
        ensures squared { (ls : List Plane) → sums self.now ≡ sums_of ls → result ≡ squares ls p.now }
        ensures not_negative { (ls : List Plane) → sums self.now ≡ sums_of ls → pos 0 ≤ℤ result }
        ensures size { nat_abs result ≤ (sums self.now).planes * (49 * 2 ^ 94) }
        ensures small { nat_abs result < 2 ^ 126 };
}

impl QuadSums for Quad {
    ghost sums = { sums_in };

    fn zero() -> Quad {
        quad_of_none()
    }

    fn add_plane(&mut self, plane: &Plane) {
        *self = merged(&quad_of_plane(plane), self);
    }

    fn merge(&mut self, other: &Quad) {
        *self = merged(self, other);
    }

    fn value_at(&self, p: &Point) -> i128 {
        quad_value(self, p)
    }
}

/// The quadric of no plane.
fn quad_of_none() -> Quad
    ensures { sums_in result ≡ no_sums }
{
    Quad {
        planes: 0,
        aa: 0,
        ab: 0,
        ac: 0,
        ad: 0,
        bb: 0,
        bc: 0,
        bd: 0,
        cc: 0,
        cd: 0,
        dd: 0,
    }
}

/// The quadric of one plane.
fn quad_of_plane(plane: &Plane) -> Quad
    requires nx { nat_abs plane.now.nx < 2 ^ 32 }
    requires ny { nat_abs plane.now.ny < 2 ^ 32 }
    requires nz { nat_abs plane.now.nz < 2 ^ 32 }
    requires d { nat_abs plane.now.d < 2 ^ 49 }
    ensures { sums_in result ≡ products plane.now }
{
    let Plane { nx, ny, nz, d } = *plane;
    Quad {
        planes: 1,
        aa: product(nx, nx),
        ab: product(nx, ny),
        ac: product(nx, nz),
        ad: product(nx, d),
        bb: product(ny, ny),
        bc: product(ny, nz),
        bd: product(ny, d),
        cc: product(nz, nz),
        cd: product(nz, d),
        dd: product(d, d),
    }
}

/// The quadric of the planes of both.
fn merged(p: &Quad, q: &Quad) -> Quad
    requires { p.now.planes + q.now.planes ≤ most_planes }
    ensures { sums_in result ≡ added (sums_in p.now) (sums_in q.now) }
{
    Quad {
        planes: p.planes + q.planes,
        aa: sum(p.aa, q.aa),
        ab: sum(p.ab, q.ab),
        ac: sum(p.ac, q.ac),
        ad: sum(p.ad, q.ad),
        bb: sum(p.bb, q.bb),
        bc: sum(p.bc, q.bc),
        bd: sum(p.bd, q.bd),
        cc: sum(p.cc, q.cc),
        cd: sum(p.cd, q.cd),
        dd: sum(p.dd, q.dd),
    }
}

/// aa x² + bb y² + cc z².
fn squares_part(q: &Quad, p: &Point) -> i128
    ensures value { result
        ≡ ((q.now.aa *ℤ (p.now.x *ℤ p.now.x)) +ℤ (q.now.bb *ℤ (p.now.y *ℤ p.now.y))) +ℤ
        (q.now.cc *ℤ (p.now.z *ℤ p.now.z)) }
    ensures size { nat_abs result ≤ q.now.planes * (3 * 2 ^ 94) }
{
    sum(
        sum(twice(q.aa, p.x, p.x), twice(q.bb, p.y, p.y)),
        twice(q.cc, p.z, p.z),
    )
}

/// ab xy + ac xz + bc yz.
fn mixed_part(q: &Quad, p: &Point) -> i128
    ensures value { result
        ≡ ((q.now.ab *ℤ (p.now.x *ℤ p.now.y)) +ℤ (q.now.ac *ℤ (p.now.x *ℤ p.now.z))) +ℤ
        (q.now.bc *ℤ (p.now.y *ℤ p.now.z)) }
    ensures size { nat_abs result ≤ q.now.planes * (3 * 2 ^ 94) }
{
    sum(
        sum(twice(q.ab, p.x, p.y), twice(q.ac, p.x, p.z)),
        twice(q.bc, p.y, p.z),
    )
}

/// The mixed part and ad x + bd y + cd z.
fn half_part(q: &Quad, p: &Point) -> i128
    ensures value { result
        ≡ ((((q.now.ab *ℤ (p.now.x *ℤ p.now.y)) +ℤ (q.now.ac *ℤ (p.now.x *ℤ p.now.z))) +ℤ
        (q.now.bc *ℤ (p.now.y *ℤ p.now.z))) +ℤ ((q.now.ad *ℤ p.now.x) +ℤ (q.now.bd *ℤ p.now.y))) +ℤ
        (q.now.cd *ℤ p.now.z) }
    ensures size { nat_abs result ≤ q.now.planes * (15 * 2 ^ 94) }
{
    sum(
        sum(mixed_part(q, p), sum(once(q.ad, p.x), once(q.bd, p.y))),
        once(q.cd, p.z),
    )
}

/// The value of the sums at a point.
fn quad_value(q: &Quad, p: &Point) -> i128
    ensures value { result ≡ sums_value (sums_in q.now) p.now }
    ensures size { nat_abs result ≤ q.now.planes * (49 * 2 ^ 94) }
{
    let half = half_part(q, p);
    sum(sum(squares_part(q, p), sum(half, half)), q.dd)
}

/// The product of two coefficients of planes.
fn product(a: i64, b: i64) -> i128
    ensures { result ≡ a *ℤ b }
{
    a as i128 * b as i128
}

/// The sum of two numbers, whose sizes add up to less than 2^127.
#[tactic(auto, using(crate::proofs::SumsSizes::size_sum))]
fn sum(a: i128, b: i128) -> i128
    requires { nat_abs a + nat_abs b < 2 ^ 127 }
    ensures value { result ≡ a +ℤ b }
    ensures size { nat_abs result ≤ nat_abs a + nat_abs b }
{
    a + b
}

/// The product of a number of at most 2^111 in size and a coordinate.
#[tactic(auto, using(crate::proofs::SumsSizes::size_product))]
fn once(k: i128, x: i16) -> i128
    requires { nat_abs k ≤ 2 ^ 111 }
    ensures value { result ≡ k *ℤ x }
    ensures size { nat_abs result ≤ nat_abs k * 2 ^ 15 }
{
    k * x as i128
}

/// The product of a number of at most 2^96 in size and two coordinates.
#[tactic(auto, using(crate::proofs::SumsRing::mul_assoc))]
fn twice(k: i128, x: i16, y: i16) -> i128
    requires { nat_abs k ≤ 2 ^ 96 }
    ensures value { result ≡ k *ℤ (x *ℤ y) }
    ensures size { nat_abs result ≤ nat_abs k * 2 ^ 30 }
{
    once(once(k, x), y)
}

#[cfg(test)]
mod tests {
    use super::*;

    #[test]
    fn none_is_zero(rt: HostRuntime) {
        let top = Point {
            x: 1,
            y: 2,
            z: 32767,
        };
        assert_eq!(rt; Quad::zero().value_at(&top), 0);
    }

    #[test]
    fn one_plane_squares_at_each_corner(rt: HostRuntime) {
        let mut quad = Quad::zero();
        quad.add_plane(&Plane {
            nx: 0,
            ny: 0,
            nz: 4294836225,
            d: 140733193420800,
        });
        for (x, y) in [
            (-32768, -32768),
            (32767, -32768),
            (-32768, 32767),
            (32767, 32767),
            (0, 5),
        ] {
            let top = Point { x, y, z: 32767 };
            assert_eq!(rt; quad.value_at(&top), 79220909236042181489028890625);
            let bottom = Point { x, y, z: -32768 };
            assert_eq!(rt; quad.value_at(&bottom), 0);
        }
    }

    #[test]
    fn the_largest_quad_fits(rt: HostRuntime) {
        let (a, d) = (
            928455029464035206174343168,
            -121694457621910022543683507716096,
        );
        let quad = Quad {
            planes: 50331648,
            aa: a,
            ab: a,
            ac: a,
            ad: d,
            bb: a,
            bc: a,
            bd: d,
            cc: a,
            cd: d,
            dd: 15950735949418990474845684723364134912,
        };
        let low = Point {
            x: -32768,
            y: -32768,
            z: -32768,
        };
        assert_eq!(rt; quad.value_at(&low), 48849128845095658329214909465302663168);
    }

    #[test]
    fn merged_adds(rt: HostRuntime) {
        let mut one = Quad::zero();
        one.add_plane(&Plane {
            nx: 2,
            ny: -3,
            nz: 5,
            d: 7,
        });
        let mut other = Quad::zero();
        other.add_plane(&Plane {
            nx: 1,
            ny: 1,
            nz: -4,
            d: -6,
        });
        one.merge(&other);
        let point = Point {
            x: 10,
            y: -20,
            z: 30,
        };
        assert_eq!(rt; one.planes, 2);
        assert_eq!(rt; one.value_at(&point), 237 * 237 + 136 * 136);
    }
}
