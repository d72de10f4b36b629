//! A reader of a mesh.

use super::feed::Feed;
use super::items::item_after;
use super::start::read_header;
use mesh_items::{Item, Items, MeshFault};
use oemm_io::Source;
use oemm_limits::MOST_MESH_BYTES;
use oemm_lines::Lines;
use ply_header::Layout;
use std::marker::Model;

/// A reader of a binary PLY mesh of either byte order, over the lines of its source.
///
/// Contracts see it as how far it has come: what it has given, and what it has left to give.
#[derive(Drop)]
pub struct PlyReader<S> {
    feed: Feed<S>,
    /// The layout, once the header was read.
    layout: Option<Layout>,
    /// How many vertices and faces were given.
    done: u64,
    /// The fault that was answered.
    fault: Option<MeshFault>,
}

impl<S> Model for PlyReader<S> {
    ghost use Rattle.ply_reader.specs.Reader.{IsReadyBy, Progress};

    ghost Value = { Progress S };

    ghost view = { λ a. record { feed = a.feed; layout = a.layout; done = a.done; fault = a.fault } };

    ghost invariant = { λ a. IsReadyBy a.fault a.layout a.done a.feed };
}

impl<S: Source> PlyReader<S> {
    ghost use Rattle.std.specs.Prelude.{◌≡◌, false, None};
    ghost use Rattle.std.specs.Option.{option_map};
    ghost use Rattle.mesh_items.specs.Reading.{nothing_given, Advances, Reads};
    ghost use Rattle.oemm_lines.specs.Stream.{fresh_stream, UsesSource};
    ghost use Rattle.ply_reader.specs.Mesh.{ply_reading};
    ghost use Rattle.ply_reader.specs.Reader.{given_of, reading_of, source_of};

    /// A reader of all that the source says. No line was read yet, the budget is 2^33 bytes, and there are no comments.
    pub fn new(lines: Lines<S>) -> PlyReader<S>
        requires { lines ≡ fresh_stream MOST_MESH_BYTES false lines.source }
        ensures source { source_of result ≡ lines.source }
        ensures given { given_of result ≡ nothing_given }
        ensures reading { reading_of S.left result ≡ option_map ply_reading (S.left lines.source) }
    {
        PlyReader {
            feed: Feed::new(lines),
            layout: None,
            done: 0,
            fault: None,
        }
    }

    /// The source. The bytes that were taken and not yet read are lost.
    pub fn into_source(self) -> S
        ensures { result ≡ source_of self }
    {
        let PlyReader { feed, .. } = self;
        feed.into_source()
    }

    /// The counts, where no fault was answered and the header wasn't read yet.
    fn begin(&mut self) -> Result<Option<Item>, MeshFault>
        requires calm { self.old.fault ≡ None }
        requires first { self.old.layout ≡ None }
        ensures given { Advances (given_of self.old) result (given_of self.new) }
        ensures told { Reads (reading_of S.left self.old) result (reading_of S.left self.new) }
        ensures uses { UsesSource S.left S.faults MeshFault.Read self.old.feed.stream self.new.feed.stream result }
    {
        match read_header(&mut self.feed) {
            Ok(layout) => {
                let v = layout.vertex.count as u32;
                let f = layout.face.count as u32;
                self.layout = Some(layout);
                Ok(Some(Item::Counts { v, f }))
            }
            Err(fault) => {
                self.fault = Some(fault);
                Err(fault)
            }
        }
    }
}

impl<S: Source> Items for PlyReader<S> {
    ghost use Rattle.std.specs.Prelude.{◌≡◌, None, Ok, Err, IfSome};
    ghost use Rattle.fault_counts.specs.Counts.{TellsFailure};
    ghost use Rattle.fault_counts.specs.Told.{TakesSome};
    ghost use Rattle.mesh_items.specs.Reading.{IsComplete, Advances, Reads};
    ghost use Rattle.ply_reader.specs.Reader.{given_of, reading_of, source_of};

    ghost given = { λ a. given_of a };

    ghost reading = { λ a. reading_of S.left a };

    ghost left = { λ a. S.left (source_of a) };

    ghost faults = { λ a. S.faults (source_of a) };

    /// The next item, or None behind the last face.
    ///
    /// # Errors
    /// The first fault of the mesh. Once a fault was answered, each later call answers it again. Neither then nor
    /// behind the last face anything is asked of the source.
    fn next(&mut self) -> Result<Option<Item>, MeshFault>
        ensures given { Advances (given_of self.old) result (given_of self.new) }
        ensures told { Reads (reading_of S.left self.old) result (reading_of S.left self.new) }
        ensures left { TakesSome (S.left (source_of self.old)) (S.left (source_of self.new)) }
        ensures cause { self.old.fault ≡ None →
            TellsFailure MeshFault.Read (S.faults (source_of self.old)) (S.faults (source_of self.new)) result }
        ensures again { IfSome self.old.fault (λ fault. (result ≡ Err fault) × (self.new ≡ self.old)) }
        ensures end { self.old.fault ≡ None → IsComplete (given_of self.old) → (result ≡ Ok None)
            × (self.new ≡ self.old) }
    {
        if let Some(fault) = self.fault {
            return Err(fault);
        }
        let Some(layout) = &self.layout else {
            return self.begin();
        };
        match item_after(&mut self.feed, layout, self.done) {
            Ok(Some(item)) => {
                self.done += 1;
                Ok(Some(item))
            }
            Ok(None) => Ok(None),
            Err(fault) => {
                self.fault = Some(fault);
                Err(fault)
            }
        }
    }
}
