//! What the system's answers mean for a source and a sink, and what these keep of them.

ghost use Rattle.std.specs.Prelude.{◌≡◌, ◌≤◌, ◌<◌, true, IfOk, OnOk, OnErr, is_err};
ghost use Rattle.fault_counts.specs.Counts.{next_count, HasCause};
ghost use Rattle.oemm_io.specs.Files.{fresh, takes_nothing, after_put, after_fault};

use crate::flows::Failed;
use std::io;
use std::marker::Model;

/// How often the sink failed, and whether it is finished.
#[derive(Drop)]
pub struct Tally {
    faults: u64,
    finished: bool,
}

impl Model for Tally {
    ghost use Rattle.oemm_io.specs.Files.{SinkState};

    ghost Value = { SinkState };

    ghost view = { λ a. record { faults = a.faults; finished = a.finished } };
}

impl Tally {
    pub fn new() -> Tally
        ensures { result ≡ fresh }
    {
        Tally {
            faults: 0,
            finished: false,
        }
    }

    /// What a put answers where the system wrote so many bytes of those that it was offered.
    pub fn put(&mut self, written: io::Result<usize>, offered: usize) -> Result<usize, Failed>
        ensures fails { is_err result ≡ takes_nothing written offered }
        ensures count { IfOk result (λ n. written ≡ Ok n) }
        ensures some { IfOk result (λ n. 0 < offered → 0 < n) }
        ensures after { IfOk result (λ n. self.new ≡ after_put self.old n) }
        ensures after_fault { OnErr result (self.new ≡ after_fault self.old) }
        ensures cause { HasCause self.old.faults self.new.faults result }
    {
        match written {
            Ok(count) if count > 0 || offered == 0 => {
                self.finished = self.finished && count == 0;
                Ok(count)
            }
            _ => Err(count_fault(&mut self.faults)),
        }
    }

    /// What a finish answers where the system answered this.
    pub fn finish(&mut self, flushed: io::Result<()>) -> Result<(), Failed>
        ensures fails { is_err result ≡ is_err flushed }
        ensures after { OnOk result (self.new ≡ record self.old { finished = true }) }
        ensures after_fault { OnErr result (self.new ≡ after_fault self.old) }
        ensures cause { HasCause self.old.faults self.new.faults result }
    {
        match flushed {
            Ok(()) => {
                self.finished = true;
                Ok(())
            }
            Err(_) => Err(count_fault(&mut self.faults)),
        }
    }
}

/// What a take answers where the system read this.
pub fn taken(read: io::Result<usize>, faults: &mut u64) -> Result<usize, Failed>
    ensures fails { is_err result ≡ is_err read }
    ensures count { IfOk result (λ n. read ≡ Ok n) }
    ensures after { OnOk result (faults.new ≡ faults.old) }
    ensures after_fault { OnErr result (faults.new ≡ next_count faults.old) }
    ensures cause { HasCause faults.old faults.new result }
{
    match read {
        Ok(count) => Ok(count),
        Err(_) => Err(count_fault(faults)),
    }
}

/// Counts one fault more.
pub fn count_fault(faults: &mut u64) -> Failed
    ensures after { faults.new ≡ next_count faults.old }
    ensures kept { faults.old ≤ faults.new }
{
    *faults = faults.saturating_add(1);
    Failed
}
