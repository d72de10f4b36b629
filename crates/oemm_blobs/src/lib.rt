//! Stores of bytes under keys: what they promise of calls, faults and crashes, one in memory and one in a folder.
#![tactic(auto)]

mod armed;
mod blob_map;
mod blobs;
mod folder;
mod history;
mod in_turn;
mod keys;
pub mod laws;
mod memory;
mod names;
mod system;

pub use blobs::{Blobs, StoreFail};
pub use folder::FolderBlobs;
pub use history::HistoryBlobs;
pub use in_turn::change_in_turn;
pub use keys::{Change, Key};
pub use memory::MemBlobs;

#[cfg(test)]
mod tests;
