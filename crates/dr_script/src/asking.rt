ghost use Rattle.std.specs.Prelude.{◌≡◌};
ghost use Rattle.dr_ask.specs.Asked.{asked};
ghost use Rattle.dr_ask.specs.MadeFor.{MadeFor};
ghost use Rattle.dr_base.specs.Reading.{GivesUnless, passed};
ghost use Rattle.dr_core.specs.Asking.{answer_over};
ghost use Rattle.dr_script.specs.Commands.{asking_error, is_lack};
ghost use Rattle.dr_script.specs.declared.script_error.ScriptError.TheVariants.{Answer};

use crate::script_error::ScriptError;
use dr_ask::Query;
use dr_core::ask_by;
use dr_timeline::{AskError, OpenGate, Snapshot};
use std::sync::Wait;
use std::thread::Threads;

/// The answer to a query over the ranges of a snapshot, by so many workers, whom no gate holds up. Refusals: 80 `WorkerNotStarted` and
/// 81 `ResultTooLarge`.
pub fn ask<T: Threads + Wait + Sync>(
    rt: &T,
    snapshot: &Snapshot,
    query: &Query,
    workers: usize,
) -> Result<Vec<u8>, ScriptError>
    requires { MadeFor snapshot.now.schema (asked query.now) }
    ensures { GivesUnless is_lack (λ text. text.items) result (passed Answer (answer_over (asked query.now) snapshot.now)) }
{
    match ask_by(rt, snapshot, query, workers, &OpenGate) {
        Ok(text) => Ok(text),
        Err(error) => Err(refusal(error)),
    }
}

fn refusal(error: AskError) -> ScriptError
    ensures { result ≡ asking_error error }
{
    match error {
        AskError::Answer(error) => ScriptError::Answer(error),
        AskError::WorkerNotStarted => ScriptError::WorkerNotStarted,
    }
}
