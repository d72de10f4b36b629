//! The records behind a header.

ghost use Rattle.std.specs.Prelude.{◌≡◌, ◌+◌, ◌≤◌, ◌<◌, None, IfOk, OnOk};
ghost use Rattle.oemm_lines.specs.Stream.{UsesSource};
ghost use Rattle.mesh_items.specs.Progress.{MayFollow};
ghost use Rattle.ply_reader.specs.Body as grammar;
ghost use Rattle.ply_reader.specs.Feed.{fixed_from, rest_left, Finds, IsOpen, Passes};

use super::feed::Feed;
use super::record::properties_in;
use super::values::Record;
use mesh_items::{Item, MeshFault, MeshWhy, fault_at};
use oemm_io::Source;
use oemm_limits::MOST_ITEMS;
use ply_header::{ByteOrder, Element, Layout, Property, size_of};

/// How many bytes the properties have, where each of them is a number that isn't looked at, and else None.
fn fixed_size(properties: &[Property]) -> Option<u128>
    ensures { result ≡ fixed_from 0 properties.now }
{
    let mut size: u128 = 0;
    for property in properties {
        let Property::Single(number) = *property else {
            return None;
        };
        size += size_of(number) as u128;
    }
    Some(size)
}

/// Passes over a record with these properties, which aren't all of a fixed size.
#[tactic(auto, unfolding(crate::specs::Body::record_passed))]
fn record_passed<S: Source>(
    feed: &mut Feed<S>,
    order: ByteOrder,
    properties: &[Property],
) -> Result<(), MeshFault>
    requires open { IsOpen feed.old }
    requires size { fixed_from 0 properties.now ≡ None }
    ensures passes { Passes (grammar.record_passed order properties.now) (rest_left S.left feed.old) result
        (rest_left S.left feed.new) }
    ensures open { OnOk result (IsOpen feed.new) }
    ensures uses { UsesSource S.left S.faults MeshFault.Read feed.old.stream feed.new.stream result }
{
    let record = Record {
        order,
        at: feed.place(),
        number: 0,
        vertices: 0,
    };
    properties_in(feed, &record, properties)?;
    Ok(())
}

/// Passes over so many records with these properties, which aren't all of a fixed size, one by one.
fn each_record_passed<S: Source>(
    feed: &mut Feed<S>,
    order: ByteOrder,
    properties: &[Property],
    count: u64,
) -> Result<(), MeshFault>
    requires open { IsOpen feed.old }
    requires size { fixed_from 0 properties.now ≡ None }
    ensures passes { Passes (grammar.records_passed order properties.now count) (rest_left S.left feed.old) result
        (rest_left S.left feed.new) }
    ensures open { OnOk result (IsOpen feed.new) }
    ensures uses { UsesSource S.left S.faults MeshFault.Read feed.old.stream feed.new.stream result }
{
    for _ in 0..count {
        record_passed(feed, order, properties)?;
    }
    Ok(())
}

/// Passes over the records of an element: at once where they have a fixed size, which may be 0.
fn records_passed<S: Source>(
    feed: &mut Feed<S>,
    order: ByteOrder,
    element: &Element,
) -> Result<(), MeshFault>
    requires { IsOpen feed.old }
    ensures passes { Passes (grammar.records_passed order element.now.properties element.now.count)
        (rest_left S.left feed.old) result (rest_left S.left feed.new) }
    ensures open { OnOk result (IsOpen feed.new) }
    ensures uses { UsesSource S.left S.faults MeshFault.Read feed.old.stream feed.new.stream result }
{
    let properties = element.properties.slice();
    match fixed_size(properties) {
        Some(size) => feed.pass(u128::from(element.count).saturating_mul(size)),
        None => each_record_passed(feed, order, properties, element.count),
    }
}

/// Passes over elements that are neither the vertices nor the faces.
fn elements_passed<S: Source>(
    feed: &mut Feed<S>,
    order: ByteOrder,
    elements: &[Element],
) -> Result<(), MeshFault>
    requires { IsOpen feed.old }
    ensures passes { Passes (grammar.elements_passed order elements.now) (rest_left S.left feed.old) result
        (rest_left S.left feed.new) }
    ensures open { OnOk result (IsOpen feed.new) }
    ensures uses { UsesSource S.left S.faults MeshFault.Read feed.old.stream feed.new.stream result }
{
    for element in elements {
        records_passed(feed, order, element)?;
    }
    Ok(())
}

/// Passes over the elements, if they stand here.
fn passed_if<S: Source>(
    feed: &mut Feed<S>,
    here: bool,
    order: ByteOrder,
    elements: &[Element],
) -> Result<(), MeshFault>
    requires { IsOpen feed.old }
    ensures passes { Passes (grammar.passed_if here order elements.now) (rest_left S.left feed.old) result
        (rest_left S.left feed.new) }
    ensures open { OnOk result (IsOpen feed.new) }
    ensures uses { UsesSource S.left S.faults MeshFault.Read feed.old.stream feed.new.stream result }
{
    if here {
        return elements_passed(feed, order, elements);
    }
    Ok(())
}

/// Passes over the foreign elements that stand in front of the vertex or face behind so many of them.
#[tactic(auto, unfolding(crate::specs::Body::led_to))]
fn led_to<S: Source>(feed: &mut Feed<S>, layout: &Layout, done: u64) -> Result<(), MeshFault>
    requires { IsOpen feed.old }
    ensures passes { Passes (grammar.led_to layout.now done) (rest_left S.left feed.old) result
        (rest_left S.left feed.new) }
    ensures open { OnOk result (IsOpen feed.new) }
    ensures uses { UsesSource S.left S.faults MeshFault.Read feed.old.stream feed.new.stream result }
{
    passed_if(feed, done == 0, layout.order, layout.before.slice())?;
    let behind_vertices = done == layout.vertex.count;
    passed_if(feed, behind_vertices, layout.order, layout.between.slice())
}

/// The vertex whose record stands at the front.
#[tactic(auto, unfolding(crate::specs::Body::vertex_in))]
fn vertex_in<S: Source>(feed: &mut Feed<S>, layout: &Layout, number: u64) -> Result<Item, MeshFault>
    requires open { IsOpen feed.old }
    requires few { layout.now.vertex.count ≤ MOST_ITEMS }
    requires below { number < layout.now.vertex.count }
    ensures finds { Finds (grammar.vertex_in layout.now number) (rest_left S.left feed.old) result
        (rest_left S.left feed.new) }
    ensures may { IfOk result (MayFollow layout.now.vertex.count number) }
    ensures open { OnOk result (IsOpen feed.new) }
    ensures uses { UsesSource S.left S.faults MeshFault.Read feed.old.stream feed.new.stream result }
{
    let record = Record {
        order: layout.order,
        at: feed.place(),
        number: number as u32,
        vertices: layout.vertex.count as u32,
    };
    let values = properties_in(feed, &record, layout.vertex.properties.slice())?;
    Ok(Item::Vertex(values.point))
}

/// The face whose record stands at the front.
#[tactic(auto, unfolding(crate::specs::Body::face_in))]
fn face_in<S: Source>(feed: &mut Feed<S>, layout: &Layout, number: u64) -> Result<Item, MeshFault>
    requires open { IsOpen feed.old }
    requires few { layout.now.vertex.count ≤ MOST_ITEMS }
    requires below { number < MOST_ITEMS }
    ensures finds { Finds (grammar.face_in layout.now number) (rest_left S.left feed.old) result
        (rest_left S.left feed.new) }
    ensures may { IfOk result (MayFollow layout.now.vertex.count (layout.now.vertex.count + number)) }
    ensures open { OnOk result (IsOpen feed.new) }
    ensures uses { UsesSource S.left S.faults MeshFault.Read feed.old.stream feed.new.stream result }
{
    let at = feed.place();
    let record = Record {
        order: layout.order,
        at,
        number: number as u32,
        vertices: layout.vertex.count as u32,
    };
    let values = properties_in(feed, &record, layout.face.properties.slice())?;
    match values.face {
        Some(triangle) => Ok(Item::Face(triangle)),
        None => Err(fault_at(at, MeshWhy::NoProperty { which: 3 })),
    }
}

/// The vertex or face behind so many of them.
///
/// # Errors
/// The fault of its record or of a foreign element in front of it, `Cut`, `TooMany`, `Read` and `Memory`.
#[tactic(auto, unfolding(crate::specs::Body::item_in))]
pub fn item_in<S: Source>(feed: &mut Feed<S>, layout: &Layout, done: u64) -> Result<Item, MeshFault>
    requires open { IsOpen feed.old }
    requires vertices { layout.now.vertex.count ≤ MOST_ITEMS }
    requires faces { layout.now.face.count ≤ MOST_ITEMS }
    requires more { done < layout.now.vertex.count + layout.now.face.count }
    ensures finds { Finds (grammar.item_in layout.now done) (rest_left S.left feed.old) result
        (rest_left S.left feed.new) }
    ensures may { IfOk result (MayFollow layout.now.vertex.count done) }
    ensures open { OnOk result (IsOpen feed.new) }
    ensures uses { UsesSource S.left S.faults MeshFault.Read feed.old.stream feed.new.stream result }
{
    led_to(feed, layout, done)?;
    if done < layout.vertex.count {
        return vertex_in(feed, layout, done);
    }
    face_in(feed, layout, done - layout.vertex.count)
}
