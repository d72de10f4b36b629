//! The commands, each from its phases.

pub mod run;
