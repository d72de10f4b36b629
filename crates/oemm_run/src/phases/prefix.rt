//! The first bytes of a source.

ghost use Rattle.std.specs.Prelude.{◌<◌, ◌≤◌, take, IfOk};
ghost use Rattle.fault_counts.specs.Counts.{HasCause};
ghost use Rattle.fault_counts.specs.Told.{Takes, IsAtEnd};
ghost use Rattle.oemm_run.specs.Outside.{HasTaken};

use oemm_io::{Failed, Source};

/// Takes the first three bytes of a source, or fewer at its end, and answers how many they are.
#[tactic(auto, using(crate::proofs::Takings::taken_bytes))]
pub fn take_prefix<S: Source>(source: &mut S, front: &mut [u8; 3]) -> Result<usize, Failed>
    ensures count { IfOk result (λ n. n ≤ 3) }
    ensures taken { IfOk result (λ n. Takes (S.left source.old) (S.left source.new) (take n front.new)) }
    ensures end { IfOk result (λ n. n < 3 → IsAtEnd (S.left source.new)) }
    ensures some { HasTaken (S.left source.old) (S.left source.new) }
    ensures cause { HasCause (S.faults source.old) (S.faults source.new) result }
{
    let mut count = 0;
    while count < 3 {
        let more = source.take(&mut front[count..])?;
        if more == 0 {
            return Ok(count);
        }
        count += more;
    }
    Ok(count)
}
