//! The lines of a header that declare a property.

ghost use Rattle.std.specs.Prelude.{◌≡◌, [], ◌∷◌, IfErr, IfOk};
ghost use Rattle.std.specs.List.{list_any};
ghost use Rattle.mesh_items.specs.Results.{IsOfText};
ghost use Rattle.ply_header.specs.Header as grammar;

use super::layout::{Axis, Element, Property, PropertyType, Role, ScalarType};
use super::names::{axis_named, is_float, names_corners, scalar_named};
use mesh_items::{MeshFault, MeshWhy, fault_at};
use oemm_lines::WordsLeft;

/// The next word of a line that must have one.
pub fn next_word<'a>(at: u64, words: &mut WordsLeft<'a>) -> Result<&'a [u8], MeshFault>
    ensures word { IfOk result (λ word. words.old ≡ word.now ∷ words.new) }
    ensures none { IfErr result (λ fault. (words.old ≡ []) × (fault ≡ MeshFault.Text at MeshWhy.HeadLine)) }
{
    words.next().ok_or(fault_at(at, MeshWhy::HeadLine))
}

/// The value where no word is left.
pub fn at_line_end<T: Drop>(at: u64, value: T, mut words: WordsLeft<'_>) -> Result<T, MeshFault>
    ensures exact { result ≡ grammar.at_line_end at value words.entry }
    ensures fault { IfErr result IsOfText }
{
    if words.next().is_some() {
        return Err(fault_at(at, MeshWhy::HeadLine));
    }
    Ok(value)
}

/// What a property that isn't read holds.
fn unread(kind: PropertyType) -> Property
    ensures { result ≡ grammar.unread kind }
{
    match kind {
        PropertyType::Scalar(number) => Property::Single(number),
        PropertyType::List { count, item } => Property::Many { count, item },
    }
}

/// A coordinate of this type, or what is wrong with it.
fn coordinate_of(at: u64, axis: Axis, kind: PropertyType) -> Result<Property, MeshFault>
    ensures exact { result ≡ grammar.coordinate_of at axis kind }
    ensures fault { IfErr result IsOfText }
{
    match kind {
        PropertyType::Scalar(number) => {
            if is_float(number) {
                return Err(fault_at(at, MeshWhy::FloatCoordinate));
            }
            Ok(Property::Coordinate { axis, number })
        }
        PropertyType::List { .. } => Err(fault_at(at, MeshWhy::Kind)),
    }
}

/// The indices of a face of this type, or what is wrong with them.
fn corners_of(at: u64, kind: PropertyType) -> Result<Property, MeshFault>
    ensures exact { result ≡ grammar.corners_of at kind }
    ensures fault { IfErr result IsOfText }
{
    match kind {
        PropertyType::List { count, item } => {
            if is_float(item) {
                return Err(fault_at(at, MeshWhy::Kind));
            }
            Ok(Property::Corners { count, item })
        }
        PropertyType::Scalar(_) => Err(fault_at(at, MeshWhy::Kind)),
    }
}

/// Whether the property is the coordinate along this axis.
fn is_along(axis: Axis, property: Property) -> bool
    ensures { result ≡ grammar.is_along axis property }
{
    match property {
        Property::Coordinate { axis: other, .. } => matches!(
            (axis, other),
            (Axis::X, Axis::X) | (Axis::Y, Axis::Y) | (Axis::Z, Axis::Z)
        ),
        _ => false,
    }
}

/// Whether the property is the list of indices.
fn is_corners(property: Property) -> bool
    ensures { result ≡ grammar.is_corners property }
{
    matches!(property, Property::Corners { .. })
}

/// Whether one of the properties is the coordinate along this axis.
pub fn has_axis(axis: Axis, properties: &[Property]) -> bool
    ensures { result ≡ list_any (grammar.is_along axis) properties.now }
{
    properties.iter().any(|p| is_along(axis, *p))
}

/// Whether one of the properties is the list of indices.
pub fn has_corners(properties: &[Property]) -> bool
    ensures { result ≡ list_any grammar.is_corners properties.now }
{
    properties.iter().any(|p| is_corners(*p))
}

/// A property of a vertex, by what its name says, behind others.
fn along(
    at: u64,
    others: &[Property],
    kind: PropertyType,
    axis: Option<Axis>,
) -> Result<Property, MeshFault>
    ensures exact { result ≡ grammar.along at others.now kind axis }
    ensures fault { IfErr result IsOfText }
{
    match axis {
        None => Ok(unread(kind)),
        Some(axis) => {
            if has_axis(axis, others) {
                return Err(fault_at(at, MeshWhy::Twice));
            }
            coordinate_of(at, axis, kind)
        }
    }
}

/// A property of this name behind others.
#[tactic(auto, unfolding(crate::specs::Header::property_named))]
fn property_named(
    at: u64,
    role: Role,
    others: &[Property],
    kind: PropertyType,
    name: &[u8],
) -> Result<Property, MeshFault>
    ensures exact { result ≡ grammar.property_named at role others.now kind name.now }
    ensures fault { IfErr result IsOfText }
{
    match role {
        Role::Vertices => along(at, others, kind, axis_named(name)),
        Role::Faces => {
            if !names_corners(name) {
                return Ok(unread(kind));
            }
            if has_corners(others) {
                return Err(fault_at(at, MeshWhy::Twice));
            }
            corners_of(at, kind)
        }
        Role::Foreign => Ok(unread(kind)),
    }
}

/// A property by its type and the words from its name on.
fn named(
    at: u64,
    element: &Element,
    kind: PropertyType,
    mut words: WordsLeft<'_>,
) -> Result<Property, MeshFault>
    ensures exact { result ≡ grammar.named at element.now kind words.entry }
    ensures fault { IfErr result IsOfText }
{
    let name = next_word(at, &mut words)?;
    let property = property_named(at, element.role, element.properties.slice(), kind, name)?;
    at_line_end(at, property, words)
}

/// The type that a word names.
fn type_of(at: u64, word: &[u8]) -> Result<ScalarType, MeshFault>
    ensures exact { result ≡ grammar.type_of at word.now }
    ensures fault { IfErr result IsOfText }
{
    scalar_named(word).ok_or(fault_at(at, MeshWhy::HeadLine))
}

/// The type of a list's count.
fn count_type_of(at: u64, word: &[u8]) -> Result<ScalarType, MeshFault>
    ensures exact { result ≡ grammar.count_type_of at word.now }
    ensures fault { IfErr result IsOfText }
{
    let number = type_of(at, word)?;
    if is_float(number) {
        return Err(fault_at(at, MeshWhy::HeadLine));
    }
    Ok(number)
}

/// A list, by the words behind that word.
#[tactic(auto, unfolding(crate::specs::Header::listed))]
fn listed(at: u64, element: &Element, mut words: WordsLeft<'_>) -> Result<Property, MeshFault>
    ensures exact { result ≡ grammar.listed at element.now words.entry }
    ensures fault { IfErr result IsOfText }
{
    let count = next_word(at, &mut words)?;
    let item = next_word(at, &mut words)?;
    let count = count_type_of(at, count)?;
    let item = type_of(at, item)?;
    named(at, element, PropertyType::List { count, item }, words)
}

/// A property of an element, by the words behind the first of its line.
#[tactic(auto, unfolding(crate::specs::Header::property_of))]
pub fn property_of(
    at: u64,
    element: &Element,
    mut words: WordsLeft<'_>,
) -> Result<Property, MeshFault>
    ensures exact { result ≡ grammar.property_of at element.now words.entry }
    ensures fault { IfErr result IsOfText }
{
    let word = next_word(at, &mut words)?;
    if word == b"list".as_slice() {
        return listed(at, element, words);
    }
    let number = type_of(at, word)?;
    named(at, element, PropertyType::Scalar(number), words)
}
