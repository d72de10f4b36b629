//! The words of a header that name something.

ghost use Rattle.std.specs.Prelude.{◌≡◌};
ghost use Rattle.ply_header.specs.Layout as layout;
ghost use Rattle.ply_header.specs.Header as grammar;

use super::layout::{Axis, Role, ScalarType};

/// How many bytes a number has.
pub fn size_of(number: ScalarType) -> usize
    ensures { result ≡ layout.size_of number }
{
    match number {
        ScalarType::I8 | ScalarType::U8 => 1,
        ScalarType::I16 | ScalarType::U16 => 2,
        ScalarType::I32 | ScalarType::U32 | ScalarType::F32 => 4,
        ScalarType::F64 => 8,
    }
}

/// Whether the type is one of floating-point numbers.
pub fn is_float(number: ScalarType) -> bool
    ensures { result ≡ layout.is_float number }
{
    matches!(number, ScalarType::F32 | ScalarType::F64)
}

/// Whether the word is one of two.
pub fn is_either(word: &[u8], a: &[u8], b: &[u8]) -> bool
    ensures { result ≡ layout.is_either word.now a.now b.now }
{
    word == a || word == b
}

/// The type that a word names.
#[tactic(auto, unfolding(crate::specs::Layout::scalar_named))]
pub fn scalar_named(word: &[u8]) -> Option<ScalarType>
    ensures { result ≡ layout.scalar_named word.now }
{
    if is_either(word, b"char", b"int8") {
        Some(ScalarType::I8)
    } else if is_either(word, b"uchar", b"uint8") {
        Some(ScalarType::U8)
    } else if is_either(word, b"short", b"int16") {
        Some(ScalarType::I16)
    } else if is_either(word, b"ushort", b"uint16") {
        Some(ScalarType::U16)
    } else if is_either(word, b"int", b"int32") {
        Some(ScalarType::I32)
    } else if is_either(word, b"uint", b"uint32") {
        Some(ScalarType::U32)
    } else if is_either(word, b"float", b"float32") {
        Some(ScalarType::F32)
    } else if is_either(word, b"double", b"float64") {
        Some(ScalarType::F64)
    } else {
        None
    }
}

/// The direction whose coordinate a word names.
#[tactic(auto, unfolding(crate::specs::Layout::axis_named))]
pub fn axis_named(name: &[u8]) -> Option<Axis>
    ensures { result ≡ layout.axis_named name.now }
{
    if name == b"x".as_slice() {
        Some(Axis::X)
    } else if name == b"y".as_slice() {
        Some(Axis::Y)
    } else if name == b"z".as_slice() {
        Some(Axis::Z)
    } else {
        None
    }
}

/// Whether a word names the indices of a face.
#[tactic(auto, unfolding(crate::specs::Layout::names_corners))]
pub fn names_corners(name: &[u8]) -> bool
    ensures { result ≡ layout.names_corners name.now }
{
    is_either(name, b"vertex_indices", b"vertex_index")
}

/// What the records of an element of this name are.
#[tactic(auto, unfolding(crate::specs::Header::role_named))]
pub fn role_named(name: &[u8]) -> Role
    ensures { result ≡ grammar.role_named name.now }
{
    if name == b"vertex".as_slice() {
        Role::Vertices
    } else if name == b"face".as_slice() {
        Role::Faces
    } else {
        Role::Foreign
    }
}
