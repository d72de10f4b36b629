//! The text of a journal, read back.
#![tactic(auto)]

mod draft;
mod entry_lines;
mod fault;
pub mod laws;
mod lines;
mod numbers;
mod reply_lines;
mod text;

pub use fault::JournalFault;
pub use text::entries_of;

#[cfg(test)]
mod tests;
