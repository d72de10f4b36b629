//! The points and faces that a reader gives.

ghost use Rattle.std.specs.Prelude.{◌≡◌, IfOk, IfSome};
ghost use Rattle.fault_counts.specs.Counts.{TellsFailure};
ghost use Rattle.mesh_items.specs.Reading.{nothing_given, soup};
ghost use Rattle.oemm_run.specs.Outside.{HasTaken};
ghost use Rattle.oemm_run.specs.Soup.{limited, GivesSoup, IsSoup};

use mesh_data::Soup;
use mesh_items::{Items, MeshFault};
use mesh_soup::{SoupFault, read_soup};
use oemm_limits::DEFAULT_CAP;
use std::alloc::Global;

/// The points and faces of a mesh, of a reader that has given nothing.
///
/// # Errors
/// The first fault of the reading, `TooMany` where the vertices are more than `DEFAULT_CAP`, and `Memory`.
pub fn soup_within<I: Items>(alloc: Global, items: &mut I) -> Result<Soup, MeshFault>
    requires { I.given items.old ≡ nothing_given }
    ensures told { IfSome (I.reading items.old) (λ r. GivesSoup result (soup (limited r))) }
    ensures ranges { IfOk result IsSoup }
    ensures taken { HasTaken (I.left items.old) (I.left items.new) }
    ensures cause { TellsFailure MeshFault.Read (I.faults items.old) (I.faults items.new) result }
{
    match read_soup(alloc, items, DEFAULT_CAP) {
        Ok(soup) => Ok(soup),
        Err(SoupFault::Mesh(fault)) => Err(fault),
        Err(SoupFault::Memory) => Err(MeshFault::Memory),
    }
}
