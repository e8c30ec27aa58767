ghost use Rattle.std.specs.Prelude.{◌≡◌, ◌+◌, ◌≤◌, true, IfOk, length};
ghost use Rattle.dr_ask.specs.Asked.{asked};
ghost use Rattle.dr_ask.specs.MadeFor.{MadeFor};
ghost use Rattle.dr_ask.specs.Matching.{is_matching};
ghost use Rattle.dr_load.specs.Load.{TellsRaw};

use crate::answering::answered;
use crate::failure::Failure;
use crate::loading::ingest_all;
use crate::totals::counts_of;
use crate::watch::Watch;
use dr_ask::Query;
use dr_books::Books;
use dr_node::{Closed, Node, Seat};
use dr_spec::IngestSpec;
use std::alloc::Global;
use std::io::Read;
use std::mem::forget;
use std::sync::Wait;
use std::thread::Threads;
use std::time::Clock;

/// Loads the files into a node, and answers the query over all events.
pub(crate) fn load_into<
    B: Books,
    R: Read + Send + Drop,
    T: Threads + Wait + Clock + Sync,
    W: Watch + Sync,
>(
    rt: &T,
    alloc: Global,
    node: Node<B>,
    mut seats: Vec<Seat<B>>,
    spec: &IngestSpec,
    query: &Query,
    files: Vec<R>,
    workers: u8,
    watch: &W,
) -> Result<Vec<u8>, Failure>
    requires schema { spec.now ≡ B.schema }
    requires query { MadeFor B.schema (asked query.now) }
    requires matching { is_matching (asked query.now) ≡ true }
    requires seats { length files.items + 2 ≤ length seats.items }
    ensures { IfOk result (λ text. TellsRaw B.schema (asked query.now) text.items) }
{
    let told = ingest_all(
        rt,
        alloc,
        &node,
        seats.as_mut_slice(),
        spec,
        query,
        files,
        watch,
    )?;
    let counts = counts_of(told)?;
    let closed = close(node, seats)?;
    let text = answered(rt, alloc, query, &closed, counts, workers);
    // Giving back the memory of each event takes as long as a tenth of a load, and a program ends here.
    forget(closed);
    text
}

// The node closed with its seats.
fn close<B: Books>(node: Node<B>, seats: Vec<Seat<B>>) -> Result<Closed, Failure>
    ensures schema { IfOk result (λ closed. closed.snapshot.schema ≡ B.schema) }
{
    match node.close(seats) {
        Ok(closed) => Ok(closed),
        Err(error) => Err(Failure::of_node(error)),
    }
}
