//! The top call: what the program does, from the words of the command line on.
#![tactic(auto)]

mod commands;
mod end;
mod end_line;
mod io;
pub mod laws;
mod phases;
mod summary;
mod top;

pub use end::{End, status};
pub use end_line::end_text;
pub use io::{Commands, Io};
pub use oemm_words::{Order, Roles, WordsFault, read_words, roles};
pub use top::run;

#[cfg(test)]
mod tests;
