//! The last line of a report.

ghost use Rattle.std.specs.Prelude.{◌≡◌, ◌++◌, OnOk};
ghost use Rattle.std.specs.String.{string_bytes};
ghost use Rattle.oemm_run.specs.Report.{summary_line};

use std::alloc::AllocError;

/// Writes the counts of a mesh: its vertices, its faces, its Euler characteristic and its border edges.
///
/// # Errors
/// Want of memory.
pub fn put_summary(
    text: &mut String,
    vertices: usize,
    faces: usize,
    euler: i64,
    border: usize,
) -> Result<(), AllocError>
    ensures { OnOk result (string_bytes text.new ≡ string_bytes text.old ++ summary_line vertices faces euler border) }
{
    write!(
        text,
        "vertices {vertices} faces {faces} euler {euler} border {border}\n"
    )
}
