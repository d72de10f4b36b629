//! A reader of binary PLY meshes of either byte order.
#![tactic(auto)]

ghost use Rattle.std.specs.Prelude.{◌≡◌};
ghost use Rattle.ply_reader.specs.Mesh.{begins_as_ply};

mod body;
mod feed;
mod items;
mod numbers;
mod reader;
mod record;
mod start;
#[cfg(test)]
mod tests;
mod values;

pub use reader::PlyReader;

/// Whether the first three bytes of a file are `ply`.
pub fn is_ply(first: &[u8]) -> bool
    ensures { result ≡ begins_as_ply first.now }
{
    first.starts_with(b"ply")
}
