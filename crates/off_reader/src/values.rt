//! The counts, coordinates and indices that words write, and their faults.

ghost use Rattle.std.specs.Prelude.{◌≡◌, ◌≤◌, ◌<◌, IfErr, IfOk, IfSome};
ghost use Rattle.off_reader.specs.Grammar as grammar;
ghost use Rattle.mesh_items.specs.Results.{IsOfText};

use super::numbers::{coordinate, is_decimal, signed};
use mesh_items::{MeshFault, MeshWhy, fault_at, name_of};
use oemm_limits::{MOST_ITEMS, What};
use oemm_lines::unsigned;

/// A number that keeps the limits of a count.
fn limited(n: u128, at: u64, what: What) -> Result<u32, MeshFault>
    ensures exact { result ≡ grammar.limited at what n }
    ensures fault { IfErr result IsOfText }
{
    let Ok(count) = u64::try_from(n) else {
        return Err(fault_at(at, MeshWhy::Number));
    };
    if count > MOST_ITEMS {
        return Err(MeshFault::TooMany { what, count });
    }
    Ok(count as u32)
}

/// The count that a word writes in digits.
#[tactic(auto, unfolding(crate::specs::Grammar::count_of))]
pub fn count_of(word: &[u8], at: u64, what: What) -> Result<u32, MeshFault>
    ensures exact { result ≡ grammar.count_of at what word.now }
    ensures fault { IfErr result IsOfText }
    ensures most { IfOk result (λ n. n ≤ MOST_ITEMS) }
{
    match unsigned(word) {
        Some(n) => limited(n, at, what),
        None => Err(fault_at(at, MeshWhy::Number)),
    }
}

/// What is wrong with a word that is to write a whole number and doesn't.
fn not_whole(word: &[u8], vertex: u32) -> MeshWhy
    ensures { result ≡ grammar.not_whole vertex word.now }
{
    if is_decimal(word) {
        MeshWhy::NotInteger { vertex }
    } else {
        MeshWhy::Number
    }
}

/// The coordinate of this vertex that a word writes.
#[tactic(auto, unfolding(crate::specs::Grammar::coordinate_of))]
pub fn coordinate_of(word: &[u8], at: u64, vertex: u32) -> Result<i16, MeshFault>
    ensures exact { result ≡ grammar.coordinate_of at vertex word.now }
    ensures fault { IfErr result IsOfText }
{
    let Some(n) = coordinate(word) else {
        return Err(fault_at(at, not_whole(word, vertex)));
    };
    if n < -32768 || n > 32767 {
        return Err(fault_at(at, MeshWhy::OutOfRange { vertex }));
    }
    Ok(n as i16)
}

/// The number of corners of this face that a word writes in digits, which is three.
#[tactic(auto, unfolding(crate::specs::Grammar::corners_of))]
pub fn corners_of(word: &[u8], at: u64, face: u32) -> Result<u32, MeshFault>
    ensures exact { result ≡ grammar.corners_of at face word.now }
    ensures fault { IfErr result IsOfText }
{
    match unsigned(word) {
        Some(3) => Ok(3),
        Some(_) => Err(fault_at(at, MeshWhy::NotTriangle { face })),
        None => Err(fault_at(at, MeshWhy::Number)),
    }
}

/// What the index means that a word writes with an optional sign and digits.
#[tactic(auto, unfolding(crate::specs::Grammar::index_of))]
pub fn index_of(word: &[u8], at: u64, vertices: u32) -> Result<Option<u32>, MeshFault>
    ensures exact { result ≡ grammar.index_of at vertices word.now }
    ensures fault { IfErr result IsOfText }
    ensures below { IfOk result (λ name. IfSome name (λ n. n < vertices)) }
{
    match signed(word) {
        Some(n) => Ok(name_of(n, vertices)),
        None => Err(fault_at(at, MeshWhy::Number)),
    }
}
