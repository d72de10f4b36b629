//! The lines of a header.

ghost use Rattle.std.specs.Prelude.{◌≡◌, ◌∷◌, IfOk, IfErr, IsErrOf, IsOkAnd};
ghost use Rattle.mesh_items.specs.Results.{IsOfText};
ghost use Rattle.ply_header.specs.Results.{Answers};
ghost use Rattle.ply_header.specs.Header as grammar;
ghost use Rattle.ply_header.specs.Header.{KeepsMore};
ghost use Rattle.ply_header.specs.Limits.{IsLaidOut, IsLimited, IsStored};

use super::elements::{finished, pushed, with_element};
use super::layout::{Axis, ByteOrder, Element, Elements, Header, Layout, Property};
use super::names::is_either;
use super::properties::{at_line_end, has_axis, has_corners, next_word, property_of};
use mesh_items::{ElementKind, MeshFault, MeshWhy, fault_at};
use oemm_lines::WordsLeft;
use std::alloc::Global;

/// Nothing was declared yet.
pub fn nothing_declared(alloc: Global) -> Header
    ensures nothing { result ≡ grammar.nothing_declared }
    ensures few { IsLimited result }
{
    Header {
        order: None,
        before: Elements::new(alloc),
        vertex: None,
        between: Elements::new(alloc),
        face: None,
        last: None,
    }
}

/// The order that the words of the format say.
#[tactic(auto, unfolding(crate::specs::Header::order_of))]
fn order_of(at: u64, name: &[u8]) -> Result<ByteOrder, MeshFault>
    ensures exact { result ≡ grammar.order_of at name.now }
    ensures fault { IfErr result IsOfText }
{
    if name == b"binary_little_endian".as_slice() {
        return Ok(ByteOrder::Little);
    }
    if name == b"binary_big_endian".as_slice() {
        return Ok(ByteOrder::Big);
    }
    if name == b"ascii".as_slice() {
        return Err(fault_at(at, MeshWhy::Ascii));
    }
    Err(fault_at(at, MeshWhy::HeadLine))
}

/// The order of a line of the format.
fn format_of(at: u64, first: &[u8], mut words: WordsLeft<'_>) -> Result<ByteOrder, MeshFault>
    ensures exact { result ≡ grammar.format_of at (first.now ∷ words.entry) }
    ensures fault { IfErr result IsOfText }
{
    let name = next_word(at, &mut words)?;
    let version = next_word(at, &mut words)?;
    at_line_end(at, (), words)?;
    if first == b"format".as_slice() && version == b"1.0".as_slice() {
        return order_of(at, name);
    }
    Err(fault_at(at, MeshWhy::HeadLine))
}

/// The element with a property more.
fn with_last(element: Element, property: Property) -> Result<Element, MeshFault>
    ensures ok { IfOk result (λ longer. longer ≡ grammar.longer element property) }
    ensures err { IfErr result (λ fault. fault ≡ MeshFault.Memory) }
{
    let Element {
        role,
        count,
        properties,
    } = element;
    let properties = pushed(properties, property)?;
    Ok(Element {
        role,
        count,
        properties,
    })
}

/// The header with a further property of its last element.
#[tactic(auto, using(crate::proofs::ResultLaws::answers_exact), unfolding(crate::specs::Header::with_property))]
fn with_property(mut header: Header, at: u64, words: WordsLeft<'_>) -> Result<Header, MeshFault>
    requires { IsLimited header }
    ensures answers { Answers (grammar.with_property header at words.entry) result }
    ensures few { IfOk result IsLimited }
    ensures memory { IsErrOf result MeshFault.Memory →
        IsOkAnd (grammar.with_property header at words.entry) (KeepsMore header) }
{
    let Some(element) = header.last.take() else {
        return Err(fault_at(at, MeshWhy::HeadLine));
    };
    let property = property_of(at, &element, words)?;
    let element = with_last(element, property)?;
    Ok(Header {
        last: Some(element),
        ..header
    })
}

/// The header behind a line whose first word is this one, where the format is known.
#[tactic(auto, using(crate::proofs::ResultLaws::answers_exact), unfolding(crate::specs::Header::declared_by))]
fn declared_by(
    alloc: Global,
    header: Header,
    at: u64,
    word: &[u8],
    words: WordsLeft<'_>,
) -> Result<Header, MeshFault>
    requires { IsLimited header }
    ensures answers { Answers (grammar.declared_by header at word.now words.entry) result }
    ensures few { IfOk result IsLimited }
    ensures memory { IsErrOf result MeshFault.Memory →
        IsOkAnd (grammar.declared_by header at word.now words.entry) (KeepsMore header) }
{
    if word == b"element".as_slice() {
        return with_element(alloc, header, at, words);
    }
    if word == b"property".as_slice() {
        return with_property(header, at, words);
    }
    Err(fault_at(at, MeshWhy::HeadLine))
}

/// The header behind a line with these words, which stands at this place and doesn't end it.
///
/// # Errors
/// What is wrong with the line, at its place; `TooMany` where it declares more vertices or faces than 2^24; `Memory`,
/// where nothing is wrong with it and there is a foreign element or a property to keep.
#[tactic(auto, using(crate::proofs::ResultLaws::answers_exact), unfolding(crate::specs::Header::header_after))]
pub fn header_after(
    alloc: Global,
    header: Header,
    at: u64,
    mut words: WordsLeft<'_>,
) -> Result<Header, MeshFault>
    requires { IsLimited header }
    ensures answers { Answers (grammar.header_after header at words.entry) result }
    ensures few { IfOk result IsLimited }
    ensures memory { IsErrOf result MeshFault.Memory →
        IsOkAnd (grammar.header_after header at words.entry) (KeepsMore header) }
{
    let Some(word) = words.next() else {
        return Ok(header);
    };
    if is_either(word, b"comment", b"obj_info") {
        return Ok(header);
    }
    if header.order.is_none() {
        let order = format_of(at, word, words)?;
        return Ok(Header {
            order: Some(order),
            ..header
        });
    }
    declared_by(alloc, header, at, word, words)
}

/// Whether the line with these words ends the header: its first word is `end_header`, behind the line of the format.
pub fn ends(header: &Header, mut words: WordsLeft<'_>) -> bool
    ensures { result ≡ grammar.ends header.now words.entry }
{
    match words.next() {
        Some(word) => header.order.is_some() && word == b"end_header".as_slice(),
        None => false,
    }
}

/// What is missing of a vertex and of a face with these properties.
#[tactic(auto, unfolding(crate::specs::Header::missing))]
fn missing(vertex: &[Property], face: &[Property]) -> Option<MeshWhy>
    ensures { result ≡ grammar.missing vertex.now face.now }
{
    if !has_axis(Axis::X, vertex) {
        Some(MeshWhy::NoProperty { which: 0 })
    } else if !has_axis(Axis::Y, vertex) {
        Some(MeshWhy::NoProperty { which: 1 })
    } else if !has_axis(Axis::Z, vertex) {
        Some(MeshWhy::NoProperty { which: 2 })
    } else if !has_corners(face) {
        Some(MeshWhy::NoProperty { which: 3 })
    } else {
        None
    }
}

/// The layout that a header declares, of which no element is open.
#[tactic(auto, unfolding(crate::specs::Header::laid_out))]
fn laid_out(at: u64, header: Header) -> Result<Layout, MeshFault>
    requires { IsStored header }
    ensures exact { result ≡ grammar.laid_out at header }
    ensures few { IfOk result IsLaidOut }
    ensures fault { IfErr result IsOfText }
{
    let order = header.order.ok_or(fault_at(at, MeshWhy::HeadLine))?;
    let no_vertex = MeshWhy::NoElement {
        which: ElementKind::Vertex,
    };
    let no_face = MeshWhy::NoElement {
        which: ElementKind::Face,
    };
    let vertex = header.vertex.ok_or(fault_at(at, no_vertex))?;
    let face = header.face.ok_or(fault_at(at, no_face))?;
    if let Some(why) = missing(vertex.properties.slice(), face.properties.slice()) {
        return Err(fault_at(at, why));
    }
    Ok(Layout {
        order,
        before: header.before,
        vertex,
        between: header.between,
        face,
    })
}

/// The layout at the line with these words, which stands at this place and ends the header.
///
/// # Errors
/// `NoElement` and `NoProperty` where something is missing, and `HeadLine` where a further word stands on the line.
pub fn layout_of(header: Header, at: u64, mut words: WordsLeft<'_>) -> Result<Layout, MeshFault>
    requires { IsLimited header }
    ensures exact { result ≡ grammar.layout_of header at words.entry }
    ensures few { IfOk result IsLaidOut }
    ensures fault { IfErr result IsOfText }
{
    next_word(at, &mut words)?;
    let layout = laid_out(at, finished(header))?;
    at_line_end(at, layout, words)
}
