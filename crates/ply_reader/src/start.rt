//! The header of a file, line after line.

ghost use Rattle.std.specs.Prelude.{◌≡◌, ◌≤◌, IfErr, IfOk, OnOk};
ghost use Rattle.std.specs.Option.{option_map};
ghost use Rattle.oemm_lines.specs.Stream.{left_of, UsesSource};
ghost use Rattle.ply_header.specs.Header as grammar;
ghost use Rattle.ply_header.specs.Limits.{IsLaidOut, IsLimited};
ghost use Rattle.ply_reader.specs.Mesh as mesh;
ghost use Rattle.ply_reader.specs.Feed.{rest_left, IsOpen};
ghost use Rattle.ply_reader.specs.Reader.{first_of, header_of, Ends, HasLines};

use super::feed::Feed;
use mesh_items::{MeshFault, MeshWhy, fault_at};
use oemm_io::Source;
use oemm_lines::WordsLeft;
use ply_header::{Header, Layout, ends, header_after, layout_of, nothing_declared};
use std::alloc::Global;

/// Whether a line has the one word `ply`.
fn is_first(mut words: WordsLeft<'_>) -> bool
    ensures { result ≡ mesh.is_first words.entry }
{
    match words.next() {
        Some(word) => words.next().is_none() && word == b"ply".as_slice(),
        None => false,
    }
}

/// Reads the first line, and answers where memory for others comes from.
fn first_line<S: Source>(feed: &mut Feed<S>) -> Result<Global, MeshFault>
    requires { HasLines feed.old }
    ensures lines { OnOk result (HasLines feed.new) }
    ensures told { OnOk result (option_map (first_of feed.old.stream) (left_of S.left feed.old.stream)
        ≡ option_map (header_of grammar.nothing_declared feed.new.stream) (left_of S.left feed.new.stream)) }
    ensures fault { IfErr result
        (λ fault. Ends (option_map (first_of feed.old.stream) (left_of S.left feed.old.stream)) fault
        (left_of S.left feed.new.stream)) }
    ensures uses { UsesSource S.left S.faults MeshFault.Read feed.old.stream feed.new.stream result }
{
    let line = feed.line()?;
    if !is_first(line.words_left()) {
        return Err(fault_at(line.at, MeshWhy::Head));
    }
    let bytes = line.bytes.into_vec();
    Ok(*bytes.allocator())
}

/// Reads the lines of a header up to its end, behind those that declared this much.
fn rest_of_header<S: Source>(
    feed: &mut Feed<S>,
    alloc: Global,
    declared: Header,
) -> Result<Layout, MeshFault>
    requires lines { HasLines feed.old }
    requires few { IsLimited declared }
    ensures open { OnOk result (IsOpen feed.new) }
    ensures few { IfOk result IsLaidOut }
    ensures told { IfOk result
        (λ l. option_map (header_of declared feed.old.stream) (left_of S.left feed.old.stream)
        ≡ option_map (mesh.laid l) (rest_left S.left feed.new)) }
    ensures fault { IfErr result
        (λ fault. Ends (option_map (header_of declared feed.old.stream) (left_of S.left feed.old.stream)) fault
        (left_of S.left feed.new.stream)) }
    ensures uses { UsesSource S.left S.faults MeshFault.Read feed.old.stream feed.new.stream result }
{
    let mut header = declared;
    loop {
        let line = feed.line()?;
        if ends(&header, line.words_left()) {
            return layout_of(header, line.at, line.words_left());
        }
        header = header_after(alloc, header, line.at, line.words_left())?;
    }
}

/// Reads the header.
///
/// # Errors
/// The first fault of its lines, `Cut`, `TooMany`, `Read` and `Memory`.
pub fn read_header<S: Source>(feed: &mut Feed<S>) -> Result<Layout, MeshFault>
    requires { HasLines feed.old }
    ensures open { OnOk result (IsOpen feed.new) }
    ensures few { IfOk result IsLaidOut }
    ensures told { IfOk result
        (λ l. option_map (first_of feed.old.stream) (left_of S.left feed.old.stream)
        ≡ option_map (mesh.laid l) (rest_left S.left feed.new)) }
    ensures fault { IfErr result
        (λ fault. Ends (option_map (first_of feed.old.stream) (left_of S.left feed.old.stream)) fault
        (left_of S.left feed.new.stream)) }
    ensures uses { UsesSource S.left S.faults MeshFault.Read feed.old.stream feed.new.stream result }
{
    let alloc = first_line(feed)?;
    rest_of_header(feed, alloc, nothing_declared(alloc))
}
