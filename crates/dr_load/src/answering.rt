ghost use Rattle.std.specs.Prelude.{◌≡◌, true, IfOk};
ghost use Rattle.dr_ask.specs.Asked.{asked};
ghost use Rattle.dr_ask.specs.MadeFor.{MadeFor};
ghost use Rattle.dr_ask.specs.Matching.{is_matching};
ghost use Rattle.dr_base.specs.Reading.{GivesUnless};
ghost use Rattle.dr_load.specs.Load.{told, told_of};
ghost use Rattle.dr_load.specs.FailureRefusal.{is_lack};

use crate::failure::Failure;
use dr_ask::Query;
use dr_counts::counts_line;
use dr_node::Closed;
use dr_timeline::OpenGate;
use std::alloc::{AllocError, Global};
use std::sync::Wait;
use std::thread::Threads;

/// The counts, and the answer by so many workers over the events of a closed node. Refusals are those of the answer.
pub(crate) fn answered<T: Threads + Wait + Sync>(
    rt: &T,
    alloc: Global,
    query: &Query,
    closed: &Closed,
    counts: (u64, u64),
    workers: u8,
) -> Result<Vec<u8>, Failure>
    requires query { MadeFor closed.now.snapshot.schema (asked query.now) }
    requires matching { is_matching (asked query.now) ≡ true }
    ensures { GivesUnless is_lack (λ text. text.items) result (told_of closed.now.snapshot.schema (asked query.now) closed.now.snapshot.stream counts) }
{
    let snapshot = &closed.snapshot;
    let answer = snapshot.answer(rt, query, usize::from(workers), &OpenGate)?;
    Ok(told(
        alloc,
        snapshot.event_count() as u64,
        counts,
        answer.as_slice(),
    )?)
}

// The line of the counts, and the line of the answer.
fn told(
    alloc: Global,
    processed: u64,
    counts: (u64, u64),
    answer: &[u8],
) -> Result<Vec<u8>, AllocError>
    ensures { IfOk result (λ text. text.items ≡ told processed counts.0 counts.1 answer.now) }
{
    let (unparseable, thrown_away) = counts;
    let mut text = counts_line(alloc, processed, unparseable, thrown_away)?;
    text.push(b'\n')?;
    text.extend_from_slice(answer)?;
    text.push(b'\n')?;
    Ok(text)
}
