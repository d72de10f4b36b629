//! The report.

ghost use Rattle.oemm_run.specs.Outside.{output};
ghost use Rattle.oemm_run.specs.Phases.Report.{WritesReport};

use oemm_io::{Failed, Sink, put_all};
use oemm_lists::Bytes;

/// Writes the report, all of it, and finishes the sink.
///
/// # Errors
/// `Failed` where the sink fails.
#[tactic(auto, using(crate::proofs::OutPhase::writes_report))]
pub fn write_report<R: Sink>(sink: R, text: &Bytes) -> (R, Result<(), Failed>)
    ensures { WritesReport (output (R.written sink) (R.faults sink) (R.finished sink))
        (output (R.written result.0) (R.faults result.0) (R.finished result.0))
        text.now result.1 }
{
    put_all(sink, text.slice())
}
