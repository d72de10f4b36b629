//! The faces of a sheet.

ghost use Rattle.std.specs.Prelude.{◌≡◌, ◌||◌};
ghost use Rattle.byte_grammar.specs.Reader.{unit};
ghost use Rattle.byte_grammar.specs.Keeps.{IsAlways as Always};
ghost use Rattle.geometry_bytes.specs.Geometry.{face, face_bytes, FitsTri};
ghost use Rattle.leaf_codec.specs.Sheets.{is_in_order, face_follows};

use byte_grammar::{Stop, Units};
use geometry_bytes::{face_at, is_turned, put_face, tri_known};
use mesh_data::{NameSet, Tri};
use std::alloc::{AllocError, Global};

/// The number of bytes of a face.
pub const FACE_BYTES: usize = 12;

/// Whether no triangle before it lies above the triangle.
#[tactic(auto, unfolding(crate::specs::Sheets::is_in_order))]
fn is_in_order(before: &[Tri], t: &Tri) -> bool
    ensures { result ≡ is_in_order t.now before.now }
{
    match before.last() {
        None => true,
        Some(last) => last.cmp(t).is_le(),
    }
}

/// Whether the triangle is turned, has a name of the sheet, and stands in order.
#[tactic(auto, unfolding(crate::specs::Sheets::face_follows))]
fn face_follows(names: &NameSet, before: &[Tri], t: &Tri) -> bool
    ensures { result ≡ face_follows names.now before.now t.now }
{
    is_turned(t) && (names.has(t.a) || names.has(t.b) || names.has(t.c)) && is_in_order(before, t)
}

/// The faces of a sheet with vertices of these names.
#[derive(Drop)]
pub struct FaceUnits {
    pub names: NameSet,
}

impl Units for FaceUnits {
    type Item = Tri;

    fn most(len: usize) -> usize {
        len / FACE_BYTES
    }

    ghost reading = { λ u before. unit (face_follows u.names before) face };

    ghost fits = { FitsTri };

    ghost sound = { Always };

    ghost spelled = { face_bytes };

    fn write(item: &Tri, out: &mut Vec<u8>) -> Result<(), AllocError> {
        put_face(out, item)
    }

    fn known(item: &Tri) {
        tri_known(item);
    }

    fn read<'a>(
        &self,
        alloc: Global,
        before: &[Tri],
        bytes: &'a [u8],
    ) -> Result<(Tri, &'a [u8]), Stop> {
        let left = bytes.len();
        let Some((t, rest)) = face_at(bytes) else {
            return Err(Stop::Bad { left });
        };
        if !face_follows(&self.names, before, &t) {
            return Err(Stop::Bad { left });
        }
        Ok((t, rest))
    }
}
