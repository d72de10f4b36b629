//! The lines of a header that declare an element.

ghost use Rattle.std.specs.Prelude.{◌≡◌, ℕ, ◌∷◌, ◌++◌, [], is_some, IfOk, IfErr, IsErr, IsErrOf, IsOkAnd};
ghost use Rattle.mesh_items.specs.Results.{IsOfText};
ghost use Rattle.ply_header.specs.Results.{Answers};
ghost use Rattle.ply_header.specs.Header as grammar;
ghost use Rattle.ply_header.specs.Header.{KeepsElement, KeepsMore};
ghost use Rattle.ply_header.specs.Limits.{HasFew, IsLimited, IsStored};

use super::layout::{Element, Header, Properties, Role};
use super::names::role_named;
use super::properties::{at_line_end, next_word};
use mesh_items::{MeshFault, MeshWhy, fault_at};
use oemm_limits::{MOST_ITEMS, What};
use oemm_lines::{WordsLeft, unsigned};
use oemm_lists::List;
use std::alloc::Global;

/// The list with an item more.
pub fn pushed<T: Drop>(mut list: List<T>, item: T) -> Result<List<T>, MeshFault>
    ensures ok { IfOk result (λ longer. longer ≡ list ++ item ∷ []) }
    ensures err { IfErr result (λ fault. fault ≡ MeshFault.Memory) }
{
    match list.push(item) {
        Ok(()) => Ok(list),
        Err(_) => Err(MeshFault::Memory),
    }
}

/// The header with this element put where it stands: behind the faces nothing is kept.
fn placed(header: Header, element: Element) -> Result<Header, MeshFault>
    requires few { HasFew element.role element.count }
    requires stored { IsStored header }
    ensures ok { IfOk result (λ done. done ≡ grammar.placed_element element element.role header) }
    ensures few { IfOk result IsLimited }
    ensures err { IfErr result (λ fault. fault ≡ MeshFault.Memory) }
    ensures memory { IsErr result → KeepsElement header (grammar.placed_element element element.role header) }
{
    match element.role {
        Role::Vertices => Ok(Header {
            vertex: Some(element),
            last: None,
            ..header
        }),
        Role::Faces => Ok(Header {
            face: Some(element),
            last: None,
            ..header
        }),
        Role::Foreign => placed_foreign(header, element),
    }
}

/// The header with this foreign element put where it stands.
fn placed_foreign(header: Header, element: Element) -> Result<Header, MeshFault>
    requires { IsStored header }
    ensures ok { IfOk result (λ done. done ≡ grammar.placed_element element Role.Foreign header) }
    ensures few { IfOk result IsLimited }
    ensures err { IfErr result (λ fault. fault ≡ MeshFault.Memory) }
    ensures memory { IsErr result → KeepsElement header (grammar.placed_element element Role.Foreign header) }
{
    if header.vertex.is_none() {
        let before = pushed(header.before, element)?;
        return Ok(Header {
            before,
            last: None,
            ..header
        });
    }
    if header.face.is_none() {
        let between = pushed(header.between, element)?;
        return Ok(Header {
            between,
            last: None,
            ..header
        });
    }
    Ok(Header {
        last: None,
        ..header
    })
}

/// The header with its last element put where it stands, so that another can follow.
fn closed(mut header: Header) -> Result<Header, MeshFault>
    requires { IsLimited header }
    ensures ok { IfOk result (λ done. done ≡ grammar.closed header) }
    ensures few { IfOk result IsLimited }
    ensures err { IfErr result (λ fault. fault ≡ MeshFault.Memory) }
    ensures memory { IsErr result → KeepsElement header (grammar.closed header) }
{
    match header.last.take() {
        None => Ok(header),
        Some(element) => placed(header, element),
    }
}

/// The header in which no element is open and which declares the same layout. A foreign element that was declared last
/// isn't kept: behind the faces none is, and a header that ends in front of them declares no layout.
pub fn finished(mut header: Header) -> Header
    requires { IsLimited header }
    ensures same { (at : ℕ) → grammar.laid_out at result ≡ grammar.laid_out at (grammar.closed header) }
    ensures few { IsStored result }
{
    let Some(element) = header.last.take() else {
        return header;
    };
    match element.role {
        Role::Vertices => Header {
            vertex: Some(element),
            ..header
        },
        Role::Faces => Header {
            face: Some(element),
            ..header
        },
        Role::Foreign => header,
    }
}

/// Whether the vertices were declared.
fn has_vertices(header: &Header) -> bool
    ensures { result ≡ is_some (grammar.closed header.now).vertex }
{
    match &header.last {
        Some(
            Element {
                role: Role::Vertices,
                ..
            },
        ) => true,
        _ => header.vertex.is_some(),
    }
}

/// Whether the faces were declared.
fn has_faces(header: &Header) -> bool
    ensures { result ≡ is_some (grammar.closed header.now).face }
{
    match &header.last {
        Some(
            Element {
                role: Role::Faces,
                ..
            },
        ) => true,
        _ => header.face.is_some(),
    }
}

/// What is wrong with an element of this role behind the elements of a header.
fn role_fault(role: Role, header: &Header) -> Option<MeshWhy>
    ensures { result ≡ grammar.role_fault role (grammar.closed header.now) }
{
    match role {
        Role::Vertices => {
            if has_vertices(header) {
                Some(MeshWhy::Twice)
            } else {
                None
            }
        }
        Role::Faces => {
            if has_faces(header) {
                Some(MeshWhy::Twice)
            } else if !has_vertices(header) {
                Some(MeshWhy::FaceFirst)
            } else {
                None
            }
        }
        Role::Foreign => None,
    }
}

/// A count of so many records.
fn limited(at: u64, role: Role, count: u64) -> Result<u64, MeshFault>
    ensures exact { result ≡ grammar.limited at role count }
    ensures few { IfOk result (HasFew role) }
    ensures fault { IfErr result IsOfText }
{
    let what = match role {
        Role::Vertices => What::Vertices,
        Role::Faces => What::Faces,
        Role::Foreign => return Ok(count),
    };
    if count > MOST_ITEMS {
        return Err(MeshFault::TooMany { what, count });
    }
    Ok(count)
}

/// The count of records that a word writes.
#[tactic(auto, unfolding(crate::specs::Header::count_of))]
fn count_of(at: u64, role: Role, word: &[u8]) -> Result<u64, MeshFault>
    ensures exact { result ≡ grammar.count_of at role word.now }
    ensures few { IfOk result (HasFew role) }
    ensures fault { IfErr result IsOfText }
{
    let Some(number) = unsigned(word) else {
        return Err(fault_at(at, MeshWhy::HeadLine));
    };
    let Ok(count) = u64::try_from(number) else {
        return Err(fault_at(at, MeshWhy::Number));
    };
    limited(at, role, count)
}

/// The count of records, behind which no further word stands.
fn last_count_of(at: u64, role: Role, mut words: WordsLeft<'_>) -> Result<u64, MeshFault>
    ensures exact { result ≡ grammar.last_count_of at role words.entry }
    ensures few { IfOk result (HasFew role) }
    ensures fault { IfErr result IsOfText }
{
    let word = next_word(at, &mut words)?;
    let count = count_of(at, role, word)?;
    at_line_end(at, count, words)
}

/// The header with a further element, by the words behind the first of its line.
#[tactic(auto, using(crate::proofs::ResultLaws::answers_exact), unfolding(crate::specs::Header::with_element))]
pub fn with_element(
    alloc: Global,
    header: Header,
    at: u64,
    mut words: WordsLeft<'_>,
) -> Result<Header, MeshFault>
    requires { IsLimited header }
    ensures answers { Answers (grammar.with_element header at words.entry) result }
    ensures few { IfOk result IsLimited }
    ensures memory { IsErrOf result MeshFault.Memory →
        IsOkAnd (grammar.with_element header at words.entry) (KeepsMore header) }
{
    let name = next_word(at, &mut words)?;
    let role = role_named(name);
    if let Some(why) = role_fault(role, &header) {
        return Err(fault_at(at, why));
    }
    let count = last_count_of(at, role, words)?;
    let header = closed(header)?;
    let properties = Properties::new(alloc);
    Ok(Header {
        last: Some(Element {
            role,
            count,
            properties,
        }),
        ..header
    })
}
