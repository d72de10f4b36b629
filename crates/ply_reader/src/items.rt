//! The vertices and faces, one after another.

ghost use Rattle.std.specs.Prelude.{◌≡◌, ◌+◌, ◌≤◌, ◌<◌, None, Ok, IfErr, IfOk, OnOk};
ghost use Rattle.std.specs.Option.{option_map};
ghost use Rattle.oemm_lines.specs.Stream.{left_of, UsesSource};
ghost use Rattle.ply_header.specs.Limits.{IsLaidOut};
ghost use Rattle.ply_reader.specs.Feed.{rest_left, IsOpen};
ghost use Rattle.ply_reader.specs.Reader.{items_left, Ends, GivesNext};

use super::body::item_in;
use super::feed::Feed;
use mesh_items::{Item, MeshFault};
use oemm_io::Source;
use ply_header::Layout;

/// The vertex or face behind so many of them, or None behind the last one.
pub fn item_after<S: Source>(
    feed: &mut Feed<S>,
    layout: &Layout,
    done: u64,
) -> Result<Option<Item>, MeshFault>
    requires open { IsOpen feed.old }
    requires few { IsLaidOut layout.now }
    requires within { done ≤ layout.now.vertex.count + layout.now.face.count }
    ensures open { OnOk result (IsOpen feed.new) }
    ensures next { IfOk result (GivesNext layout.now done (rest_left S.left feed.old) (rest_left S.left feed.new)) }
    ensures end { done ≡ layout.now.vertex.count + layout.now.face.count → (result ≡ Ok None) × (feed.new ≡ feed.old) }
    ensures fault { IfErr result
        (λ fault. Ends (option_map (items_left layout.now done) (rest_left S.left feed.old)) fault
        (left_of S.left feed.new.stream)) }
    ensures uses { UsesSource S.left S.faults MeshFault.Read feed.old.stream feed.new.stream result }
{
    if done == layout.vertex.count + layout.face.count {
        return Ok(None);
    }
    let item = item_in(feed, layout, done)?;
    Ok(Some(item))
}
