//! The numbers of vertices and lanes.

use oemm_lists::{AscendingSet, Copied, Numbered};
use std::alloc::{AllocError, Global};
use std::marker::Model;

/// A vertex: its place in the input, which it keeps as long as the mesh lives.
#[derive(Clone, Copy, Debug, Default, PartialEq, Eq, PartialOrd, Ord)]
pub struct Name(pub u32);

impl Model for Name {
    ghost use Rattle.std.specs.Prelude.{ℕ};

    ghost Value = { ℕ };

    ghost view = { λ n. n.0 };

    ghost inverse = { λ n. record { 0 = n } };
}

/// One of the queues of tasks that are done in order, 0 to 63.
#[derive(Clone, Copy, Debug, PartialEq, Eq, PartialOrd, Ord)]
pub struct Lane(pub u8);

impl Model for Lane {
    ghost use Rattle.std.specs.Prelude.{ℕ};

    ghost Value = { ℕ };

    ghost view = { λ n. n.0 };

    ghost inverse = { λ n. record { 0 = n } };
}

impl Copied for Name {
    fn copy(&self, alloc: Global) -> Result<Name, AllocError> {
        Ok(*self)
    }
}

impl Numbered for Name {
    ghost use Rattle.std.proofs.Common.{sym, map-id};

    ghost number = { λ name. name };

    ghost numbers = { λ names. names };

    fn number(&self) -> u32 {
        self.0
    }

    ghost each = { λ names. sym (map-id names) };
}

/// Names of vertices, strictly ascending.
pub type NameSet = AscendingSet<Name>;
