//! The parts of a mesh's file, one after another, and what can be wrong with them.

ghost use Rattle.std.specs.Prelude.{◌≡◌, ℕ, Option, None, Ok, Err, IfSome};
ghost use Rattle.fault_counts.specs.Counts.{TellsFailure};
ghost use Rattle.fault_counts.specs.Told.{Told, TakesSome, IsLeftAlone};
ghost use Rattle.mesh_items.specs.Reading.{Reading, Given, Advances, Reads, IsComplete};

use mesh_data::Tri;
use oemm_limits::What;
use oemm_octree::Point;
use std::alloc::{AllocError, AllocFailed};

/// A part of a mesh, in the order of its file: the counts, then the vertices, then the faces.
#[derive(Clone, Copy, Debug, PartialEq, Eq)]
pub enum Item {
    /// The number of vertices and of faces to come.
    Counts { v: u32, f: u32 },
    Vertex(Point),
    /// A face with its names as the file has them.
    Face(Tri),
}

/// An element of a PLY file that a mesh can't do without.
#[derive(Clone, Copy, Debug, PartialEq, Eq)]
pub enum ElementKind {
    Vertex,
    Face,
}

/// What is wrong with a mesh's text. Vertices and faces are numbered from 0.
#[derive(Clone, Copy, Debug, PartialEq, Eq)]
pub enum MeshWhy {
    /// The first line isn't `ply`, or the first word of another file isn't `OFF`.
    Head,
    /// The format of a PLY file is `ascii`.
    Ascii,
    /// A line of a PLY header has none of its forms, or stands where it can't.
    HeadLine,
    /// The faces of a PLY file are declared before its vertices.
    FaceFirst,
    /// The vertices, the faces, or a property of them that is read are declared a second time.
    Twice,
    /// A coordinate is declared as a floating-point number.
    FloatCoordinate,
    /// A coordinate is declared as a list, or the indices as no list of whole numbers.
    Kind,
    /// A PLY header ends without this element.
    NoElement { which: ElementKind },
    /// A PLY header ends without a property that is read: 0, 1 and 2 are the coordinates, and 3 the list of indices.
    NoProperty { which: u8 },
    /// A line has too few words.
    Words,
    /// A word that must be a number isn't one, or a count is above 2^64 - 1.
    Number,
    /// A list of a PLY file has a negative count.
    ListCount,
    /// A coordinate isn't a whole number.
    NotInteger { vertex: u32 },
    /// A coordinate lies outside the grid.
    OutOfRange { vertex: u32 },
    /// A face hasn't three indices.
    NotTriangle { face: u32 },
    /// An index is negative or at least the number of vertices.
    BadIndex { face: u32 },
    /// Two indices of a face are equal.
    Repeated { face: u32 },
    /// The text ends before the last face is read.
    Cut,
}

/// Why a mesh can't be read.
#[derive(Clone, Copy, Debug, PartialEq, Eq)]
pub enum MeshFault {
    /// The source failed.
    Read,
    /// `at` is the number of bytes before the line or the record in which the fault stands, and for a cut that of the
    /// source.
    Text { at: u64, why: MeshWhy },
    /// A limit is passed. `count` is what the file counts, for a line one byte more than it may have, and for the
    /// bytes of the file their limit.
    TooMany { what: What, count: u64 },
    Memory,
}

impl From<AllocError> for MeshFault {
    ghost use Rattle.std.specs.Prelude.{◌≡◌};
    ghost use Rattle.mesh_items.specs.declared.items.MeshFault.TheVariants.{Memory};

    ghost from_gives = { λ _ fault. fault ≡ Memory };

    fn from(_: AllocError) -> MeshFault {
        MeshFault::Memory
    }
}

impl<T: Drop> From<AllocFailed<T>> for MeshFault {
    ghost use Rattle.std.specs.Prelude.{◌≡◌};
    ghost use Rattle.mesh_items.specs.declared.items.MeshFault.TheVariants.{Memory};

    ghost from_gives = { λ _ fault. fault ≡ Memory };

    fn from(_: AllocFailed<T>) -> MeshFault {
        MeshFault::Memory
    }
}

/// The parts of a mesh, one after another.
pub trait Items {
    /// What was given so far.
    ghost given: { Self → Given };

    /// The items to come and the fault behind them, or none where they aren't told.
    ghost reading: { Self → Option Reading };

    /// The bytes that what it reads from has left, or none where they aren't told.
    ghost left: { Self → Told };

    /// How often what it reads from has failed.
    ghost faults: { Self → ℕ };

    /// The next item, or None behind the last face. After a fault each later call answers that fault. Neither then nor
    /// behind the last face anything is asked of what it reads from.
    fn next(&mut self) -> Result<Option<Item>, MeshFault>
        ensures given { Advances (given self.old) result (given self.new) }
        ensures told { Reads (reading self.old) result (reading self.new) }
        ensures left { TakesSome (left self.old) (left self.new) }
        ensures cause { (given self.old).fault ≡ None →
            TellsFailure MeshFault.Read (faults self.old) (faults self.new) result }
        ensures again { IfSome (given self.old).fault
            (λ fault. (result ≡ Err fault)
            × IsLeftAlone (left self.old) (left self.new) (faults self.old) (faults self.new)) }
        ensures end { (given self.old).fault ≡ None → IsComplete (given self.old) → (result ≡ Ok None)
            × IsLeftAlone (left self.old) (left self.new) (faults self.old) (faults self.new) };
}
