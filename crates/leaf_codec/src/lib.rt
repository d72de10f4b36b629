//! Sheets of leaves, the index of a store and the entries of its journal as bytes: one spelling each, both ways.
#![tactic(auto)]

mod blob;
mod edits;
mod entry;
mod faces;
mod formats;
mod index;
pub mod laws;
mod leaves;
mod replies;
mod reply_fields;
mod sheet;
mod steps;
mod vertices;

pub use blob::Blob;
pub use byte_grammar::CodecFault;

#[cfg(test)]
mod tests;
