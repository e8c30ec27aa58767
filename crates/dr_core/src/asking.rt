ghost use Rattle.dr_answers.specs.AnswerRefusal.{Answers};
ghost use Rattle.dr_ask.specs.Asked.{asked};
ghost use Rattle.dr_ask.specs.MadeFor.{MadeFor};
ghost use Rattle.dr_core.specs.Asking.{answer_over};

use dr_answers::AnswerError;
use dr_ask::Query;
use dr_timeline::Snapshot;

/// The answer to a query on a snapshot that was made for its schema, over the snapshot's own ranges: of a scan what
/// [`Snapshot::scan`] writes, of any other query what [`Snapshot::answer_one`] answers. Refusals: 81 `ResultTooLarge` where there
/// are over 100000 groups. The cost is that of the one of the two.
pub fn ask(snapshot: &Snapshot, query: &Query) -> Result<Vec<u8>, AnswerError>
    requires { MadeFor snapshot.now.schema (asked query.now) }
    ensures { Answers (λ text. text.items) result (answer_over (asked query.now) snapshot.now) }
{
    if query.is_scan() {
        return Ok(snapshot.scan(query)?);
    }
    snapshot.answer_one(query)
}
