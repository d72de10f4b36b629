//! Laws of the grammar of binary PLY files: of whole files, of the lines of a header, and of the records behind it.

pub mod file;
pub mod header;
pub mod record;
