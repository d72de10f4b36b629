//! The faults that lines and limits make.

ghost use Rattle.std.specs.Prelude.{◌≡◌};
ghost use Rattle.mesh_items.specs.Faults.{fault_of};

use crate::items::{MeshFault, MeshWhy};
use oemm_limits::{MOST_LINE_BYTES, What};
use oemm_lines::LineFault;

/// The fault of a line or a record that has so many bytes before it.
pub fn fault_at(at: u64, why: MeshWhy) -> MeshFault
    ensures { result ≡ MeshFault.Text at why }
{
    MeshFault::Text { at, why }
}

/// The fault of a mesh in which a fault of its lines stands: the budget of the lines is the limit that was passed.
pub fn fault_of_lines(fault: LineFault) -> MeshFault
    ensures { result ≡ fault_of fault }
{
    match fault {
        LineFault::Read => MeshFault::Read,
        LineFault::TooLong { .. } => MeshFault::TooMany {
            what: What::LineBytes,
            count: MOST_LINE_BYTES + 1,
        },
        LineFault::Bytes { taken } => MeshFault::TooMany {
            what: What::MeshBytes,
            count: taken,
        },
        LineFault::Memory => MeshFault::Memory,
    }
}
