//! The names of the files of a store in a folder.

ghost use Rattle.std.specs.Prelude.{◌≡◌, IfOk};
ghost use Rattle.std.specs.String.{string_bytes};
ghost use Rattle.oemm_blobs.specs.Names.{path_of, new_path_of};

use crate::keys::Key;
use std::alloc::{AllocError, Global};
use std::fmt;

/// A key is written as the name of its file.
impl fmt::Display for Key {
    ghost use Rattle.std.specs.Prelude.{Some};
    ghost use Rattle.oemm_blobs.specs.Names.{file_name};

    ghost output = { λ key. Some (file_name key) };

    fn fmt<W: fmt::Write>(&self, f: &mut fmt::Formatter<W>) -> fmt::Result {
        match self {
            Key::Index => write!(f, "index"),
            Key::Leaf { leaf, version } => write!(f, "leaf-{}-{version}", leaf.0),
            Key::Entry(number) => write!(f, "entry-{number}"),
            Key::Page(number) => write!(f, "page-{number}"),
            Key::Run { leaf, part } => write!(f, "run-{}-{part}", leaf.0),
        }
    }
}

/// Where the bytes of a key stand.
pub fn path(alloc: Global, folder: &str, key: &Key) -> Result<String, AllocError>
    ensures { IfOk result (λ path. string_bytes path ≡ path_of folder.now key.now) }
{
    let name = key.to_string(alloc)?;
    let mut path = String::from_str(alloc, folder)?;
    path.push_str("/")?;
    path.push_str(&name)?;
    Ok(path)
}

/// Where a put first writes the bytes of a key.
pub fn new_path(alloc: Global, folder: &str, key: &Key) -> Result<String, AllocError>
    ensures { IfOk result (λ path. string_bytes path ≡ new_path_of folder.now key.now) }
{
    let mut path = path(alloc, folder, key)?;
    path.push_str(".new")?;
    Ok(path)
}
