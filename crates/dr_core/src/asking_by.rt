ghost use Rattle.dr_ask.specs.Asked.{asked};
ghost use Rattle.dr_ask.specs.MadeFor.{MadeFor};
ghost use Rattle.dr_core.specs.Asking.{answer_over};
ghost use Rattle.dr_timeline.specs.AskRefusal.{AnswersUnless};

use dr_ask::Query;
use dr_timeline::{AskError, Gate, Snapshot};
use std::sync::Wait;
use std::thread::Threads;

/// What [`crate::ask`] answers, by so many workers, 1 to 16, each of which enters the gate before it works on a range: of a scan what
/// [`Snapshot::scan`] writes, by this thread alone and without the gate, of any other query what [`Snapshot::answer`] answers.
/// Refusals: 80 `WorkerNotStarted` where the system refused a thread, and 81 `ResultTooLarge` where there are over 100000
/// groups. The cost is that of the one of the two.
pub fn ask_by<R: Threads + Wait + Sync, G: Gate + Sync>(
    rt: &R,
    snapshot: &Snapshot,
    query: &Query,
    workers: usize,
    gate: &G,
) -> Result<Vec<u8>, AskError>
    requires { MadeFor snapshot.now.schema (asked query.now) }
    ensures { AnswersUnless (λ text. text.items) result (answer_over (asked query.now) snapshot.now) }
{
    if query.is_scan() {
        return Ok(snapshot.scan(query)?);
    }
    snapshot.answer(rt, query, workers, gate)
}
