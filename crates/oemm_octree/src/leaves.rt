//! The numbers of leaves.

use oemm_lists::{AscendingSet, Copied, Numbered};
use std::alloc::{AllocError, Global};
use std::marker::Model;

/// A leaf of the octree, numbered from 0 in depth-first order.
#[derive(Clone, Copy, Debug, PartialEq, Eq, PartialOrd, Ord)]
pub struct LeafNo(pub u32);

impl Model for LeafNo {
    ghost use Rattle.std.specs.Prelude.{ℕ};

    ghost Value = { ℕ };

    ghost view = { λ n. n.0 };

    ghost inverse = { λ n. record { 0 = n } };
}

impl Copied for LeafNo {
    fn copy(&self, alloc: Global) -> Result<LeafNo, AllocError> {
        Ok(*self)
    }
}

impl Numbered for LeafNo {
    ghost use Rattle.std.proofs.Common.{sym, map-id};

    ghost number = { λ leaf. leaf };

    ghost numbers = { λ leaves. leaves };

    fn number(&self) -> u32 {
        self.0
    }

    ghost each = { λ leaves. sym (map-id leaves) };
}

/// Leaves, strictly ascending.
pub type LeafSet = AscendingSet<LeafNo>;
