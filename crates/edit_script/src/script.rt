//! A script that is read from its source.

ghost use Rattle.std.specs.Prelude.{◌≡◌, ◌≤◌, ◌^◌, true, OnOk, IfOk, IfErr, IfSome, length};
ghost use Rattle.fault_counts.specs.Counts.{TellsFailure};
ghost use Rattle.fault_counts.specs.Told.{TakesSome, IsAtEnd};
ghost use Rattle.oemm_lines.specs.Stream.{fresh_stream};
ghost use Rattle.edit_script.specs.Grammar.{script_of};
ghost use Rattle.edit_script.specs.Ranges.{AreTasks};
ghost use Rattle.edit_script.specs.Script.{StopsBy, GivesScript, TakesScript, fault_of_take};

use crate::byte_source::ByteSource;
use crate::draft::Draft;
use crate::fault::ScriptFault;
use mesh_data::Script;
use oemm_io::{Source, TakeFault, take_all};
use oemm_limits::{MOST_SCRIPT_BYTES, What};
use oemm_lines::Lines;
use std::alloc::{AllocError, Global};

/// Reads a script to the end of its source.
///
/// # Errors
/// `Syntax` and `TooMany` where the text has a fault, which is then its first. `Read` where the source fails, and
/// `Memory`. Each time the source has lost the bytes that were taken until then.
pub fn read_script<S: Source>(alloc: Global, source: S) -> (S, Result<Script, ScriptFault>)
    ensures told { IfSome (S.left source) (λ bytes. GivesScript result.1 (script_of bytes)) }
    ensures cause { TellsFailure ScriptFault.Read (S.faults source) (S.faults result.0) result.1 }
    ensures some { TakesSome (S.left source) (S.left result.0) }
    ensures ok { IfOk result.1 (TakesScript (S.left source) (S.left result.0)) }
    ensures ok_end { OnOk result.1 (IsAtEnd (S.left result.0)) }
    ensures ranges { IfOk result.1 (λ script. AreTasks script.tasks) }
{
    let (source, taken) = take_all(alloc, source, MOST_SCRIPT_BYTES);
    let script = match taken {
        Ok(bytes) => script_of_bytes(alloc, &bytes),
        Err(fault) => Err(fault_of_take(fault)),
    };
    (source, script)
}

/// The fault of a source that can't be taken whole.
fn fault_of_take(fault: TakeFault) -> ScriptFault
    ensures { result ≡ fault_of_take fault }
{
    match fault {
        TakeFault::Failed => ScriptFault::Read,
        TakeFault::TooMany => ScriptFault::TooMany {
            what: What::ScriptBytes,
            count: MOST_SCRIPT_BYTES as u64,
        },
        TakeFault::Memory => ScriptFault::Memory,
    }
}

/// The lines of these bytes, with comments.
fn held_lines(alloc: Global, bytes: &[u8]) -> Result<Lines<ByteSource<'_>>, AllocError>
    ensures bytes { IfOk result (λ lines. lines.source.left.now ≡ bytes.now) }
    ensures fresh { IfOk result (λ lines. lines ≡ fresh_stream MOST_SCRIPT_BYTES true lines.source) }
{
    match Lines::new(
        alloc,
        ByteSource { left: bytes },
        MOST_SCRIPT_BYTES as u64,
        true,
    ) {
        Ok(lines) => Ok(lines),
        Err((_, error)) => Err(error),
    }
}

/// Reads a script that is in memory.
fn script_of_bytes(alloc: Global, bytes: &[u8]) -> Result<Script, ScriptFault>
    requires { length bytes.now ≤ 2 ^ 26 }
    ensures ok { IfOk result (λ script. script_of bytes.now ≡ Ok script.tasks) }
    ensures err { IfErr result (λ fault. StopsBy fault (script_of bytes.now)) }
    ensures ranges { IfOk result (λ script. AreTasks script.tasks) }
{
    let mut lines = held_lines(alloc, bytes)?;
    let mut draft = Draft::new(alloc);
    while let Some(line) = lines.next()? {
        if !line.words.is_empty() {
            draft.read_line(alloc, &line)?;
        }
    }
    Ok(draft.finish())
}
