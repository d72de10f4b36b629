//! The words of the command line, and what they ask for.
#![tactic(auto)]

mod command_words;
mod orders;
mod words;

pub use command_words::{CommandWord, CommandWords};
pub use orders::{Order, Roles, WordsFault};
pub use words::{read_words, roles};

#[cfg(test)]
mod tests;
