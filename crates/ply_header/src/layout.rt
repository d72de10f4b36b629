//! How the bytes of a PLY file are laid out.

use oemm_lists::List;

/// In which order the bytes of a number stand.
#[derive(Clone, Copy)]
pub enum ByteOrder {
    /// The least first.
    Little,
    /// The greatest first.
    Big,
}

/// A type of numbers: whole ones with and without a sign, and floating-point ones, by their bits.
#[derive(Clone, Copy)]
pub enum ScalarType {
    I8,
    U8,
    I16,
    U16,
    I32,
    U32,
    F32,
    F64,
}

/// A number, or a list by the type of its count and that of its items.
#[derive(Clone, Copy)]
pub enum PropertyType {
    Scalar(ScalarType),
    List { count: ScalarType, item: ScalarType },
}

/// A direction of the grid.
#[derive(Clone, Copy)]
pub enum Axis {
    X,
    Y,
    Z,
}

/// What stands at one place of each record of an element.
#[derive(Clone, Copy)]
pub enum Property {
    /// A coordinate of a vertex.
    Coordinate { axis: Axis, number: ScalarType },
    /// The indices of a face: how many they are, and each of them.
    Corners { count: ScalarType, item: ScalarType },
    /// A number that isn't looked at.
    Single(ScalarType),
    /// A list of which only the length is looked at.
    Many { count: ScalarType, item: ScalarType },
}

/// The properties of a record, in their order.
pub type Properties = List<Property>;

/// What the records of an element are.
#[derive(Clone, Copy)]
pub enum Role {
    Vertices,
    Faces,
    /// Nothing that a mesh has.
    Foreign,
}

/// Records of one form that stand behind one another.
#[derive(Drop)]
pub struct Element {
    pub role: Role,
    /// How many records it has.
    pub count: u64,
    pub properties: Properties,
}

/// Elements in their order.
pub type Elements = List<Element>;

/// What stands behind the header, up to the last face.
#[derive(Drop)]
pub struct Layout {
    pub order: ByteOrder,
    /// The foreign elements in front of the vertices.
    pub before: Elements,
    pub vertex: Element,
    /// The foreign elements between the vertices and the faces.
    pub between: Elements,
    pub face: Element,
}

/// What was declared up to a line of the header.
#[derive(Drop)]
pub struct Header {
    /// The order, once the line of the format was read.
    pub order: Option<ByteOrder>,
    /// The foreign elements in front of the vertices.
    pub before: Elements,
    /// The vertices, once an element behind them was declared.
    pub vertex: Option<Element>,
    /// The foreign elements between the vertices and the faces.
    pub between: Elements,
    /// The faces, once an element behind them was declared.
    pub face: Option<Element>,
    /// The element that was declared last, to which the properties to come belong.
    pub last: Option<Element>,
}
