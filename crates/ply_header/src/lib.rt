//! The header of a binary PLY file of either byte order: what its lines declare, and how the bytes behind it are laid
//! out.
#![tactic(auto)]

mod elements;
mod header;
mod layout;
mod names;
mod properties;
#[cfg(test)]
mod tests;

pub use header::{ends, header_after, layout_of, nothing_declared};
pub use layout::{
    Axis, ByteOrder, Element, Elements, Header, Layout, Properties, Property, PropertyType, Role,
    ScalarType,
};
pub use names::size_of;
