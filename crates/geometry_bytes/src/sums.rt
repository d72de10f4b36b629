//! Quadrics.

ghost use Rattle.std.specs.Prelude.{◌≡◌, true, ◌&&◌, ◌++◌, pos, int_le, OnOk};
ghost use Rattle.mesh_data.specs.Quads.{sums_in};
ghost use Rattle.byte_grammar.specs.Calls.{Finds};
ghost use Rattle.byte_grammar.specs.Reader.{unit};
ghost use Rattle.geometry_bytes.specs.Geometry.{sums, sums_bytes, FitsSums, is_within, are_within, is_bounded};
ghost use Rattle.geometry_bytes.specs.Parts.{sums_of_parts};

use byte_grammar::{i128_at, put_i128, put_u32, u32_at};
use mesh_data::Quad;
use std::alloc::AllocError;

/// The greatest number of planes of all vertices.
const MOST_PLANES: u32 = 3 << 24;

/// The bound of a product of two components of one plane's normal.
const PRODUCT_BOUND: u128 = 1 << 64;

/// The bound of a product of such a component and the plane's offset.
const MIXED_BOUND: u128 = 1 << 81;

/// The bound of a squared offset.
const OFFSET_BOUND: u128 = 1 << 98;

/// The numbers of a quadric, which may pass their bounds.
#[derive(Drop)]
pub struct Parts {
    planes: u32,
    aa: i128,
    ab: i128,
    ac: i128,
    ad: i128,
    bb: i128,
    bc: i128,
    bd: i128,
    cc: i128,
    cd: i128,
    dd: i128,
}

/// The numbers of a quadric, and the bytes behind them.
#[tactic(auto, unfolding(crate::specs::Geometry::sums))]
fn parts_at(bytes: &[u8]) -> Option<(Parts, &[u8])>
    ensures { Finds (λ x. (sums_of_parts x.0, x.1.now)) result (sums bytes.now) }
{
    let (planes, rest) = u32_at(bytes)?;
    let (aa, rest) = i128_at(rest)?;
    let (ab, rest) = i128_at(rest)?;
    let (ac, rest) = i128_at(rest)?;
    let (ad, rest) = i128_at(rest)?;
    let (bb, rest) = i128_at(rest)?;
    let (bc, rest) = i128_at(rest)?;
    let (bd, rest) = i128_at(rest)?;
    let (cc, rest) = i128_at(rest)?;
    let (cd, rest) = i128_at(rest)?;
    let (dd, rest) = i128_at(rest)?;
    Some((
        Parts {
            planes,
            aa,
            ab,
            ac,
            ad,
            bb,
            bc,
            bd,
            cc,
            cd,
            dd,
        },
        rest,
    ))
}

/// Whether the size of a number is at most the bound.
#[tactic(auto, unfolding(crate::specs::Geometry::is_within))]
fn is_within(bound: u128, z: i128) -> bool
    ensures { result ≡ is_within bound z }
{
    z.unsigned_abs() <= bound
}

/// Whether the sizes of three numbers are at most the bound.
#[tactic(auto, unfolding(crate::specs::Geometry::are_within))]
fn are_within(bound: u128, a: i128, b: i128, c: i128) -> bool
    ensures { result ≡ are_within bound a b c }
{
    is_within(bound, a) && is_within(bound, b) && is_within(bound, c)
}

/// Whether the sums of products of two parts of normals are within their bound.
fn are_products_within(bound: u128, p: &Parts) -> bool
    ensures { result ≡ are_within bound p.now.aa p.now.ab p.now.ac && are_within bound p.now.bb p.now.bc p.now.cc }
{
    are_within(bound, p.aa, p.ab, p.ac) && are_within(bound, p.bb, p.bc, p.cc)
}

/// Whether the sums of products with one offset are within their bound.
fn are_mixed_within(bound: u128, p: &Parts) -> bool
    ensures { result ≡ are_within bound p.now.ad p.now.bd p.now.cd }
{
    are_within(bound, p.ad, p.bd, p.cd)
}

/// Whether the sum of squared offsets is within its bounds.
fn is_last_within(bound: u128, p: &Parts) -> bool
    ensures { result ≡ int_le (pos 0) p.now.dd && is_within bound p.now.dd }
{
    p.dd >= 0 && is_within(bound, p.dd)
}

/// Whether the numbers are those of a quadric.
#[tactic(auto, unfolding(crate::specs::Geometry::is_bounded))]
fn is_bounded(p: &Parts) -> bool
    ensures { result ≡ is_bounded (sums_of_parts p.now) }
{
    if p.planes > MOST_PLANES {
        return false;
    }
    let planes = u128::from(p.planes);
    are_products_within(planes * PRODUCT_BOUND, p)
        && are_mixed_within(planes * MIXED_BOUND, p)
        && is_last_within(planes * OFFSET_BOUND, p)
}

/// The quadric of these numbers.
#[tactic(auto, unfolding(crate::specs::Geometry::is_within, crate::specs::Geometry::are_within, crate::specs::Geometry::is_bounded))]
fn quad_of(p: &Parts) -> Quad
    requires { is_bounded (sums_of_parts p.now) ≡ true }
    ensures { sums_in result ≡ sums_of_parts p.now }
{
    Quad {
        planes: p.planes,
        aa: p.aa,
        ab: p.ab,
        ac: p.ac,
        ad: p.ad,
        bb: p.bb,
        bc: p.bc,
        bd: p.bd,
        cc: p.cc,
        cd: p.cd,
        dd: p.dd,
    }
}

/// A quadric, and the bytes behind it.
pub fn quad_at(bytes: &[u8]) -> Option<(Quad, &[u8])>
    ensures { Finds (λ x. (sums_in x.0, x.1.now)) result (unit is_bounded sums bytes.now) }
{
    let (parts, rest) = parts_at(bytes)?;
    if !is_bounded(&parts) {
        return None;
    }
    Some((quad_of(&parts), rest))
}

/// Puts a quadric at the end.
#[tactic(auto, unfolding(crate::specs::Geometry::sums_bytes))]
pub fn put_quad(out: &mut Vec<u8>, q: &Quad) -> Result<(), AllocError>
    ensures { OnOk result (out.new.items ≡ out.old.items ++ sums_bytes (sums_in q.now)) }
{
    put_u32(out, q.planes)?;
    put_i128(out, q.aa)?;
    put_i128(out, q.ab)?;
    put_i128(out, q.ac)?;
    put_i128(out, q.ad)?;
    put_i128(out, q.bb)?;
    put_i128(out, q.bc)?;
    put_i128(out, q.bd)?;
    put_i128(out, q.cc)?;
    put_i128(out, q.cd)?;
    put_i128(out, q.dd)?;
    Ok(())
}

/// That the sums of a quadric fit their type, and are within their bounds.
pub fn quad_known(q: &Quad)
    ensures { FitsSums (sums_in q.now) × (is_bounded (sums_in q.now) ≡ true) }
{}
