//! Scripts of edits: their grammar and their reader.
#![tactic(auto)]

mod byte_source;
mod draft;
mod fault;
pub mod laws;
mod line;
mod numbers;
mod script;
#[cfg(test)]
mod tests;

pub use fault::{ScriptFault, ScriptWhy};
pub use script::read_script;
