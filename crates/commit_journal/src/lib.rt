//! The journal of the tasks that were done: its text, and the part of one lane.
#![tactic(auto)]

mod lanes;
mod lines;
mod text;

pub use lanes::lane_part;
pub use text::{journal_text, line_text};

#[cfg(test)]
mod tests;
