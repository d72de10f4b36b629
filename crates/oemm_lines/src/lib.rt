//! The lines of a source, and the words and decimal numbers of a line.
#![tactic(auto)]

mod ahead;
mod ends;
mod fills;
pub mod laws;
mod line_words;
mod lines;
mod numbers;
mod parts;
mod places;
mod stream;
#[cfg(test)]
mod stream_tests;
#[cfg(test)]
mod tests;
mod words;

pub use line_words::WordsLeft;
pub use numbers::{integer, unsigned};
pub use parts::{Line, LineFault, Word, Words};
pub use stream::Lines;
