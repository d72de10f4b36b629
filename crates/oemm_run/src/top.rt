//! The top call.

ghost use Rattle.oemm_run.specs.Gives.{Gives};
ghost use Rattle.oemm_run.specs.Laws.Headline.{Headline};
ghost use Rattle.oemm_run.specs.Laws.Ends.{IsComplete, TellsUsage, TellsMeshFault, TellsShape, TellsScriptFault, TellsFailures};

use crate::end::End;
use crate::io::Commands;
use oemm_words::{CommandWords, Order, WordsFault, read_words};
use std::alloc::Global;

/// Does what the words ask for.
#[tactic(auto, using(crate::proofs::Asked::no_form, crate::proofs::Asked::no_memory, crate::proofs::Asked::asked_run))]
fn perform<I: Commands>(alloc: Global, words: &CommandWords, io: I) -> (I, End)
    ensures { Gives words.now (I.outside io) (I.outside result.0) result.1 }
{
    let order = match read_words(alloc, words) {
        Ok(order) => order,
        Err(WordsFault::Usage) => return (io, End::Usage),
        Err(WordsFault::Memory) => return (io, End::Memory),
    };
    match order {
        Order::Run { form, core, .. } => io.run_script(alloc, form, core),
    }
}

/// Does what the words ask for, on one thread: reads a mesh and a script, does the script's tasks one by one on the
/// mesh, and writes the mesh that they leave and a report. It always returns.
///
/// The objects come back with the end. All tasks are done before the first byte is written, and the mesh is written
/// whole before the report begins.
pub fn run<I: Commands>(alloc: Global, words: &CommandWords, io: I) -> (I, End)
    ensures headline { Headline words.now (I.outside io) (I.outside result.0) result.1 }

    // What each end means, where the command then stood, and what it leaves.
    ensures gives { Gives words.now (I.outside io) (I.outside result.0) result.1 }

    // When each end comes, unless memory is wanting.
    ensures complete { IsComplete words.now (I.outside io) (I.outside result.0) result.1 }
    ensures usage { TellsUsage words.now result.1 }
    ensures mesh_fault { TellsMeshFault words.now (I.outside io) (I.outside result.0) result.1 }
    ensures mesh_shape { TellsShape words.now (I.outside io) (I.outside result.0) result.1 }
    ensures script_fault { TellsScriptFault words.now (I.outside io) (I.outside result.0) result.1 }
    ensures failures { TellsFailures (I.outside io) (I.outside result.0) result.1 }
{
    perform(alloc, words, io)
}
