//! The sample mesh.

use crate::grid::{face, vertex};
use crate::random::next_random;
use mesh_items::{Item, Items, MeshFault};
use std::marker::Model;

/// The sample mesh of so many vertices along a side and a seed, part by part: a square of vertices over the whole grid,
/// with heights by the numbers of a generator, and two faces between each four neighbours. It is read from nothing, so
/// it takes no memory and never fails.
#[derive(Debug, Drop)]
pub struct Sample {
    /// The number of vertices along a side.
    side: u32,
    /// The number that the generator made last, and at first the seed.
    number: u32,
    /// Whether the counts were given.
    counted: bool,
    /// How many vertices and faces were given.
    done: u32,
}

impl Model for Sample {
    ghost use Rattle.oemm_make.specs.Walk.{IsWalk, Walk, walk_of};

    ghost Value = { Walk };

    ghost view = { λ s. walk_of s.side s.number s.counted s.done };

    ghost invariant = { λ s. IsWalk s.side s.number s.counted s.done };
}

impl Sample {
    ghost use Rattle.std.specs.Prelude.{◌≡◌, ◌<◌, ◌≤◌, ◌^◌, Ok, IsOk};
    ghost use Rattle.mesh_items.specs.Progress.{reading_of};
    ghost use Rattle.mesh_items.specs.Reading.{nothing_given};
    ghost use Rattle.oemm_make.specs.Sample.{faces, points};
    ghost use Rattle.oemm_make.specs.Walk.{Walks};

    /// The sample of so many vertices along a side, 2 to 2,897, and a seed below 2^31.
    pub fn new(side: u32, seed: u32) -> Sample
        requires least { 2 ≤ side }
        requires most { side ≤ 2897 }
        requires seed { seed < 2 ^ 31 }
        ensures given { result.given ≡ nothing_given }
        ensures reading { result.reading ≡ reading_of (points side seed) (faces side) }
    {
        Sample {
            side,
            number: seed,
            counted: false,
            done: 0,
        }
    }

    /// The next item, or None behind the last face.
    fn step(&mut self) -> Option<Item>
        ensures { Walks self.old result self.new }
    {
        let vertices = self.side * self.side;
        let faces = 2 * (self.side - 1) * (self.side - 1);
        if !self.counted {
            self.counted = true;
            return Some(Item::Counts {
                v: vertices,
                f: faces,
            });
        }
        if self.done == vertices + faces {
            return None;
        }
        let place = self.done;
        self.done += 1;
        if place < vertices {
            self.number = next_random(self.number);
            Some(Item::Vertex(vertex(self.side, place, self.number)))
        } else {
            Some(Item::Face(face(self.side, place - vertices)))
        }
    }
}

impl Items for Sample {
    ghost use Rattle.std.specs.Prelude.{◌≡◌, [], None, Ok, Some, IsOk, IfSome};
    ghost use Rattle.fault_counts.specs.Counts.{TellsFailure};
    ghost use Rattle.fault_counts.specs.Told.{TakesSome, IsLeftAlone};
    ghost use Rattle.mesh_items.specs.Reading.{Advances, IsComplete, Reads};

    ghost given = { λ s. s.given };

    ghost reading = { λ s. Some s.reading };

    ghost left = { λ _. Some [] };

    ghost faults = { λ _. 0 };

    /// The next item, or None behind the last face. It always answers Ok.
    fn next(&mut self) -> Result<Option<Item>, MeshFault>
        ensures never { IsOk result }
        ensures given { Advances self.old.given result self.new.given }
        ensures told { Reads (Some self.old.reading) result (Some self.new.reading) }
        ensures end { IsComplete self.old.given → (result ≡ Ok None) × (self.new ≡ self.old) }
        ensures calm { self.new.given.fault ≡ None }
    {
        Ok(self.step())
    }
}
