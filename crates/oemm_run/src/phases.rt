//! The phases of a command, each over its own object and the values that it works on.

pub mod mesh;
pub mod out;
mod prefix;
pub mod report;
pub mod script;
pub mod shape;
mod soup;
pub mod tasks;
