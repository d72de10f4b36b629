//! A reader of a mesh.

use super::progress::{Progress, step};
use mesh_items::{Item, Items, MeshFault};
use oemm_io::Source;
use oemm_limits::MOST_MESH_BYTES;
use oemm_lines::Lines;
use std::marker::Model;

/// A reader of a mesh of the ASCII OFF format.
///
/// Nothing behind the last face is looked at, though some of it may have been taken from the source. Contracts see the
/// reader as its lines, how far it has come, and the fault that it met.
#[derive(Drop)]
pub struct OffReader<S> {
    lines: Lines<S>,
    progress: Progress,
    /// The fault that was met.
    fault: Option<MeshFault>,
}

impl<S> Model for OffReader<S> {
    ghost use Rattle.off_reader.specs.Reader.{Reader};

    ghost Value = { Reader S };

    ghost use Rattle.std.specs.Prelude.{◌≡◌, None};
    ghost use Rattle.off_reader.specs.Reader.{IsCounted};

    ghost view = { λ r. record { lines = r.lines; progress = r.progress; fault = r.fault } };

    ghost invariant = { λ r. IsCounted r.progress.counts r.progress.done × (r.fault ≡ None → r.lines.fault ≡ None) };
}

impl<S> OffReader<S> {
    ghost use Rattle.std.specs.Prelude.{◌≡◌};

    /// The source. The bytes that were read ahead are lost.
    pub fn into_source(self) -> S
        ensures { result ≡ self.lines.source }
    {
        let OffReader { lines, .. } = self;
        lines.into_source()
    }
}

impl<S: Source> OffReader<S> {
    ghost use Rattle.std.specs.Prelude.{◌≡◌, true};
    ghost use Rattle.std.specs.Option.{option_map};
    ghost use Rattle.mesh_items.specs.Reading.{nothing_given};
    ghost use Rattle.off_reader.specs.Grammar.{off_reading};
    ghost use Rattle.oemm_lines.specs.Stream.{fresh_stream};
    ghost use Rattle.off_reader.specs.Reader.{given_of, reading_left};

    /// A reader of the mesh on these lines, of which none was asked for. They have comments, and a budget of 2^33
    /// bytes.
    pub fn new(lines: Lines<S>) -> OffReader<S>
        requires { lines ≡ fresh_stream MOST_MESH_BYTES true lines.source }
        ensures source { result.lines.source ≡ lines.source }
        ensures given { given_of result.progress result.fault ≡ nothing_given }
        ensures reading { reading_left S.left result ≡ option_map off_reading (S.left lines.source) }
    {
        OffReader {
            lines,
            progress: Progress {
                counts: None,
                done: 0,
            },
            fault: None,
        }
    }
}

impl<S: Source> Items for OffReader<S> {
    ghost use Rattle.std.specs.Prelude.{◌≡◌, None, Ok, Err, IfSome};
    ghost use Rattle.fault_counts.specs.Counts.{TellsFailure};
    ghost use Rattle.fault_counts.specs.Told.{TakesSome};
    ghost use Rattle.mesh_items.specs.Reading.{IsComplete, Advances, Reads};
    ghost use Rattle.off_reader.specs.Reader.{given_of, reading_left};

    ghost given = { λ r. given_of r.progress r.fault };

    ghost reading = { λ r. reading_left S.left r };

    ghost left = { λ r. S.left r.lines.source };

    ghost faults = { λ r. S.faults r.lines.source };

    /// The next item, or None behind the last face.
    ///
    /// # Errors
    /// The first fault of the mesh. Once a fault was answered, each later call answers it again. Neither then nor
    /// behind the last face a line is asked for.
    fn next(&mut self) -> Result<Option<Item>, MeshFault>
        ensures given { Advances (given_of self.old.progress self.old.fault) result
            (given_of self.new.progress self.new.fault) }
        ensures told { Reads (reading_left S.left self.old) result (reading_left S.left self.new) }
        ensures left { TakesSome (S.left self.old.lines.source) (S.left self.new.lines.source) }
        ensures cause { self.old.fault ≡ None →
            TellsFailure MeshFault.Read (S.faults self.old.lines.source) (S.faults self.new.lines.source) result }
        ensures end { self.old.fault ≡ None → IsComplete (given_of self.old.progress self.old.fault) →
            (result ≡ Ok None) × (self.new ≡ self.old) }
        ensures again { IfSome self.old.fault (λ fault. (result ≡ Err fault) × (self.new ≡ self.old)) }
    {
        if let Some(fault) = self.fault {
            return Err(fault);
        }
        match step(&mut self.lines, self.progress) {
            Ok(Some((item, progress))) => {
                self.progress = progress;
                Ok(Some(item))
            }
            Ok(None) => Ok(None),
            Err(fault) => {
                self.fault = Some(fault);
                Err(fault)
            }
        }
    }
}
