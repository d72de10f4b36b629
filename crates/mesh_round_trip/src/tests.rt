//! What both readers give and refuse, from sources that give one byte at a take, and all.

mod off;
mod ply;

use mesh_items::{Items, MeshFault};
use oemm_io::MemSource;
use std::alloc::{AllocError, Global};

/// What stands behind the front of a file, how many items the file gives, and the fault behind them or the end.
struct Case {
    text: &'static [u8],
    given: usize,
    fault: Option<MeshFault>,
}

/// A reader of what a source in memory says.
trait Reader: Items + Drop {
    fn open(alloc: Global, source: MemSource) -> Result<Self, AllocError>;
}

/// A reader of bytes, of which the source gives so many at a take and fails at one take.
fn opened<R: Reader>(
    alloc: Global,
    text: &[u8],
    piece: usize,
    failing: u64,
) -> Result<R, AllocError> {
    let text = Vec::from_slice(alloc, text)?;
    let source = MemSource::new(text, vec![in alloc; failing]?, piece.max(1));
    R::open(alloc, source)
}

/// Whether so many items come next.
fn gives<R: Items>(reader: &mut R, count: usize) -> bool {
    for _ in 0..count {
        match reader.next() {
            Ok(Some(_)) => {}
            _ => return false,
        }
    }
    true
}

/// Whether the reader gives no item more, or this fault, twice.
fn ends<R: Items>(reader: &mut R, fault: Option<MeshFault>) -> bool {
    for _ in 0..2 {
        let is_end = match (reader.next(), fault) {
            (Ok(None), None) => true,
            (Err(fault), Some(wanted)) => fault == wanted,
            _ => false,
        };
        if !is_end {
            return false;
        }
    }
    true
}

/// Whether so many items and then this end come with so many bytes at a take.
fn holds<R: Reader>(
    alloc: Global,
    text: &[u8],
    given: usize,
    fault: Option<MeshFault>,
    piece: usize,
) -> Result<bool, AllocError> {
    let mut reader: R = opened(alloc, text, piece, 0)?;
    Ok(gives(&mut reader, given) && ends(&mut reader, fault))
}

/// The front of a file and what stands behind it.
fn joined(alloc: Global, front: &[u8], text: &[u8]) -> Result<Vec<u8>, AllocError> {
    let mut whole = front.to_vec(alloc)?;
    whole.extend_from_slice(text)?;
    Ok(whole)
}

/// Which of these cases fails behind this front with takes of one byte or of all.
fn first_failing<R: Reader>(
    alloc: Global,
    front: &[u8],
    cases: &[Case],
) -> Result<Option<usize>, AllocError> {
    for (i, case) in cases.iter().enumerate() {
        let text = joined(alloc, front, case.text)?;
        let slow = holds::<R>(alloc, &text, case.given, case.fault, 1)?;
        if !(slow && holds::<R>(alloc, &text, case.given, case.fault, 1000)?) {
            return Ok(Some(i));
        }
    }
    Ok(None)
}
