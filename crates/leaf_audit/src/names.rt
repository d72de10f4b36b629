//! How often names come, by a table.

ghost use Rattle.std.specs.Prelude.{◌≡◌, ◌<◌, ◌≤◌, ◌++◌, ◌∷◌, [], ℕ, List, length, map, All, IfOk};
ghost use Rattle.oemm_limits.specs.declared.TheConstants.{MOST_ITEMS};
ghost use Rattle.leaf_audit.specs.Tallies.{AreTimes, IsFirstTwice};

use mesh_data::Name;
use sheet_data::SheetVertex;
use std::alloc::{AllocError, Global};

/// A table of so many names, none of which has come yet.
pub(crate) fn no_times(alloc: Global, names: u32) -> Result<Vec<u8>, AllocError>
    ensures len { IfOk result (λ times. length times.items ≡ names) }
    ensures none { IfOk result (λ times. AreTimes times.items []) }
{
    vec![in alloc; 0u8; names as usize]
}

/// Counts one name more.
fn count_name(times: &mut [u8], v: Name)
    requires { v < length times.old }
    ensures len { length times.new ≡ length times.old }
    ensures counted { (names : List ℕ) → AreTimes times.old names → AreTimes times.new (names ++ v ∷ []) }
{
    let place = v.0 as usize;
    times[place] = times[place].saturating_add(1).min(2);
}

/// Counts the names of vertices.
pub(crate) fn count_names(times: &mut [u8], vertices: &[SheetVertex])
    requires { All (λ x. x.name < length times.old) vertices.now }
    ensures len { length times.new ≡ length times.old }
    ensures counted { (names : List ℕ) → AreTimes times.old names
        → AreTimes times.new (names ++ map (λ x. x.name) vertices.now) }
{
    for x in vertices {
        count_name(times, x.name);
    }
}

/// The least name that comes twice or more often.
pub(crate) fn first_twice(times: &[u8]) -> Option<Name>
    requires { length times.now ≤ MOST_ITEMS }
    ensures { IsFirstTwice times.now result }
{
    for (place, count) in times.iter().enumerate() {
        if *count == 2 {
            return Some(Name(place as u32));
        }
    }
    None
}
