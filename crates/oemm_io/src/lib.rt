//! Sources that bytes are taken from, and sinks that bytes are put into.
#![tactic(auto)]

mod copies;
mod file_sink;
mod files;
mod flows;
mod head;
mod memory;
mod tally;
mod whole;

pub use file_sink::FileSink;
pub use files::{FileSource, StdSink};
pub use flows::{BLOCK, Failed, Sink, Source};
pub use head::Headed;
pub use memory::{MemSink, MemSource};
pub use whole::{TakeFault, put_all, take_all};

#[cfg(test)]
mod tests;
