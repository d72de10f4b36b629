//! The properties of a record.

ghost use Rattle.std.specs.Prelude.{◌≡◌, ◌≤◌, ◌<◌, ◌+◌, ◌*◌, drop, length, Some, IfErr, IfOk, IfSome, OnOk};
ghost use Rattle.mesh_data.specs.Triangles.{IsProper, IsBelow};
ghost use Rattle.oemm_lines.specs.Stream.{UsesSource};
ghost use Rattle.mesh_items.specs.Results.{IsOfText};
ghost use Rattle.ply_header.specs.Layout as layout;
ghost use Rattle.ply_reader.specs.Body as grammar;
ghost use Rattle.ply_reader.specs.Feed.{rest_left, Finds, IsFaceBelow, IsOpen, Passes};

use super::feed::Feed;
use super::numbers::number_of;
use super::values::{Record, Values};
use mesh_data::Tri;
use mesh_items::{MeshFault, MeshWhy, fault_at, name_of, triangle_of};
use oemm_io::Source;
use oemm_octree::Point;
use ply_header::{Axis, ByteOrder, Property, ScalarType, size_of};

/// Nothing of a record was read yet.
pub fn no_values() -> Values
    ensures { result ≡ grammar.no_values }
{
    Values {
        point: Point { x: 0, y: 0, z: 0 },
        face: None,
    }
}

/// The point with another coordinate along this axis.
fn moved_along(axis: Axis, n: i16, point: Point) -> Point
    ensures { result ≡ grammar.moved_along axis n point }
{
    match axis {
        Axis::X => Point { x: n, ..point },
        Axis::Y => Point { y: n, ..point },
        Axis::Z => Point { z: n, ..point },
    }
}

/// The values of a record with a coordinate more.
fn with_coordinate(here: &Record, axis: Axis, n: i64, values: Values) -> Result<Values, MeshFault>
    ensures exact { result ≡ grammar.with_coordinate here.now axis n values }
    ensures fault { IfErr result IsOfText }
    ensures face { IfOk result (λ v. v.face ≡ values.face) }
{
    if n < -32768 || n > 32767 {
        let vertex = here.number;
        return Err(fault_at(here.at, MeshWhy::OutOfRange { vertex }));
    }
    Ok(Values {
        point: moved_along(axis, n as i16, values.point),
        ..values
    })
}

/// The number of items of a list.
fn list_count(here: &Record, n: i64) -> Result<u64, MeshFault>
    ensures exact { result ≡ grammar.list_count here.now n }
    ensures fault { IfErr result IsOfText }
{
    match u64::try_from(n) {
        Ok(count) => Ok(count),
        Err(_) => Err(fault_at(here.at, MeshWhy::ListCount)),
    }
}

/// What the index at a place of the bytes means.
fn index_at(here: &Record, item: ScalarType, bytes: &[u8], from: usize) -> Option<u32>
    requires { from + layout.size_of item ≤ length bytes.now }
    ensures name { result ≡ grammar.index_at here.now item (drop from bytes.now) }
    ensures below { IfSome result (λ n. n < here.now.vertices) }
{
    name_of(number_of(here.order, item, &bytes[from..]), here.vertices)
}

/// The triangle of the three numbers at the front.
fn triangle_at(here: &Record, item: ScalarType, bytes: &[u8]) -> Result<Tri, MeshFault>
    requires { 3 * layout.size_of item ≤ length bytes.now }
    ensures exact { result ≡ grammar.triangle_at here.now item bytes.now }
    ensures fault { IfErr result IsOfText }
    ensures proper { IfOk result IsProper }
    ensures below { IfOk result (IsBelow here.now.vertices) }
{
    let size = size_of(item);
    let i = index_at(here, item, bytes, 0);
    let j = index_at(here, item, bytes, size);
    let k = index_at(here, item, bytes, 2 * size);
    triangle_of(here.at, here.number, i, j, k)
}

/// The number at the front.
pub fn number_in<S: Source>(
    feed: &mut Feed<S>,
    order: ByteOrder,
    number: ScalarType,
) -> Result<i64, MeshFault>
    requires { IsOpen feed.old }
    ensures finds { Finds (grammar.number_in order number) (rest_left S.left feed.old) result
        (rest_left S.left feed.new) }
    ensures open { OnOk result (IsOpen feed.new) }
    ensures uses { UsesSource S.left S.faults MeshFault.Read feed.old.stream feed.new.stream result }
{
    let size = size_of(number);
    feed.need(size)?;
    let value = number_of(order, number, feed.bytes());
    feed.skip(size);
    Ok(value)
}

/// How many items the list at the front has.
fn count_in<S: Source>(
    feed: &mut Feed<S>,
    here: &Record,
    count: ScalarType,
) -> Result<u64, MeshFault>
    requires { IsOpen feed.old }
    ensures finds { Finds (grammar.count_in here.now count) (rest_left S.left feed.old) result
        (rest_left S.left feed.new) }
    ensures open { OnOk result (IsOpen feed.new) }
    ensures uses { UsesSource S.left S.faults MeshFault.Read feed.old.stream feed.new.stream result }
{
    let n = number_in(feed, here.order, count)?;
    list_count(here, n)
}

/// Passes over the count of a list and its items.
fn list_passed<S: Source>(
    feed: &mut Feed<S>,
    here: &Record,
    count: ScalarType,
    item: ScalarType,
) -> Result<(), MeshFault>
    requires { IsOpen feed.old }
    ensures passes { Passes (grammar.list_passed here.now count item) (rest_left S.left feed.old) result
        (rest_left S.left feed.new) }
    ensures open { OnOk result (IsOpen feed.new) }
    ensures uses { UsesSource S.left S.faults MeshFault.Read feed.old.stream feed.new.stream result }
{
    let n = count_in(feed, here, count)?;
    feed.pass(u128::from(n) * size_of(item) as u128)
}

/// The triangle of the three indices at the front, which are all there before one of them is looked at.
#[tactic(auto, unfolding(crate::specs::Body::indices_in))]
fn indices_in<S: Source>(
    feed: &mut Feed<S>,
    here: &Record,
    item: ScalarType,
) -> Result<Tri, MeshFault>
    requires { IsOpen feed.old }
    ensures finds { Finds (grammar.indices_in here.now item) (rest_left S.left feed.old) result
        (rest_left S.left feed.new) }
    ensures proper { IfOk result IsProper }
    ensures below { IfOk result (IsBelow here.now.vertices) }
    ensures open { OnOk result (IsOpen feed.new) }
    ensures uses { UsesSource S.left S.faults MeshFault.Read feed.old.stream feed.new.stream result }
{
    let size = 3 * size_of(item);
    feed.need(size)?;
    let triangle = triangle_at(here, item, feed.bytes());
    feed.skip(size);
    triangle
}

/// The triangle of the list of indices at the front, of which there are three.
#[tactic(auto, unfolding(crate::specs::Body::corners_in))]
fn corners_in<S: Source>(
    feed: &mut Feed<S>,
    here: &Record,
    count: ScalarType,
    item: ScalarType,
) -> Result<Tri, MeshFault>
    requires { IsOpen feed.old }
    ensures finds { Finds (grammar.corners_in here.now count item) (rest_left S.left feed.old) result
        (rest_left S.left feed.new) }
    ensures proper { IfOk result IsProper }
    ensures below { IfOk result (IsBelow here.now.vertices) }
    ensures open { OnOk result (IsOpen feed.new) }
    ensures uses { UsesSource S.left S.faults MeshFault.Read feed.old.stream feed.new.stream result }
{
    let n = count_in(feed, here, count)?;
    if n != 3 {
        let face = here.number;
        return Err(fault_at(here.at, MeshWhy::NotTriangle { face }));
    }
    indices_in(feed, here, item)
}

/// The values of a record with the coordinate at the front.
fn coordinate_in<S: Source>(
    feed: &mut Feed<S>,
    here: &Record,
    axis: Axis,
    number: ScalarType,
    values: Values,
) -> Result<Values, MeshFault>
    requires { IsOpen feed.old }
    ensures finds { Finds (grammar.coordinate_in here.now axis number values) (rest_left S.left feed.old) result
        (rest_left S.left feed.new) }
    ensures face { IfOk result (λ v. v.face ≡ values.face) }
    ensures open { OnOk result (IsOpen feed.new) }
    ensures uses { UsesSource S.left S.faults MeshFault.Read feed.old.stream feed.new.stream result }
{
    let n = number_in(feed, here.order, number)?;
    with_coordinate(here, axis, n, values)
}

/// The values with those of the property at the front.
#[tactic(auto, unfolding(crate::specs::Body::property_in))]
fn property_in<S: Source>(
    feed: &mut Feed<S>,
    here: &Record,
    property: Property,
    values: Values,
) -> Result<Values, MeshFault>
    requires open { IsOpen feed.old }
    requires face { IfSome values.face (IsFaceBelow here.now.vertices) }
    ensures finds { Finds (grammar.property_in here.now property values) (rest_left S.left feed.old) result
        (rest_left S.left feed.new) }
    ensures face { IfOk result (λ v. IfSome v.face (IsFaceBelow here.now.vertices)) }
    ensures open { OnOk result (IsOpen feed.new) }
    ensures uses { UsesSource S.left S.faults MeshFault.Read feed.old.stream feed.new.stream result }
{
    match property {
        Property::Coordinate { axis, number } => coordinate_in(feed, here, axis, number, values),
        Property::Corners { count, item } => {
            let triangle = corners_in(feed, here, count, item)?;
            Ok(Values {
                face: Some(triangle),
                ..values
            })
        }
        Property::Single(number) => {
            feed.pass(size_of(number) as u128)?;
            Ok(values)
        }
        Property::Many { count, item } => {
            list_passed(feed, here, count, item)?;
            Ok(values)
        }
    }
}

/// The values of these properties, which stand at the front.
pub fn properties_in<S: Source>(
    feed: &mut Feed<S>,
    here: &Record,
    properties: &[Property],
) -> Result<Values, MeshFault>
    requires { IsOpen feed.old }
    ensures finds { Finds (grammar.properties_in here.now properties.now grammar.no_values)
        (rest_left S.left feed.old) result (rest_left S.left feed.new) }
    ensures face { IfOk result (λ v. IfSome v.face (IsFaceBelow here.now.vertices)) }
    ensures open { OnOk result (IsOpen feed.new) }
    ensures uses { UsesSource S.left S.faults MeshFault.Read feed.old.stream feed.new.stream result }
{
    let mut values = no_values();
    for property in properties {
        values = property_in(feed, here, *property, values)?;
    }
    Ok(values)
}
