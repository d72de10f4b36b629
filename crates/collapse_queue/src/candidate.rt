//! A collapse with its cost, as it was at one moment.

use mesh_data::Name;

/// The collapse of `u` onto `v`, what it cost when it was put into a queue, and the stamp that it got then. Those that
/// cost less come first, then those with the lesser `u`, the lesser `v` and the lesser stamp.
#[derive(Clone, Copy, Debug, PartialEq, Eq, PartialOrd, Ord)]
pub struct Candidate {
    /// What the quadrics of both vertices give at the point of `v` (Garland and Heckbert, 1997): a sum of squared
    /// distances in steps of the grid, each times a squared normal. A queue takes any number.
    pub cost: i128,
    /// The vertex that goes.
    pub u: Name,
    /// The vertex that takes its place.
    pub v: Name,
    /// The item is live as long as this isn't below the present stamp of `u`.
    pub stamp: u64,
}
