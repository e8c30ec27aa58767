ghost use Rattle.std.specs.Prelude.{◌≡◌, ◌+◌, ◌≤◌, length};
ghost use Rattle.dr_ask.specs.Asked.{asked};
ghost use Rattle.dr_ask.specs.MadeFor.{MadeFor};

use crate::asking::ask;
use crate::failure::Failure;
use crate::ingested::Ingested;
use crate::ingesting::ingest;
use crate::publish_all::PublishAll;
use crate::tally::Tally;
use crate::watch::Watch;
use dr_ask::Query;
use dr_books::Books;
use dr_node::{Node, Seat, Stop};
use dr_spec::IngestSpec;
use std::alloc::Global;
use std::io::Read;
use std::sync::Wait;
use std::sync::atomic::AtomicU32;
use std::thread;
use std::thread::{JoinHandle, Scope, Threads};
use std::time::Clock;

/// Ingests each file in a thread of its own, through a seat of its own, while a merger and a query thread share the node, and
/// tells what became of each file, in their order. The last two seats are those of the merger and of the query thread.
pub(crate) fn ingest_all<
    B: Books,
    R: Read + Send + Drop,
    T: Threads + Wait + Clock + Sync,
    W: Watch + Sync,
>(
    rt: &T,
    alloc: Global,
    node: &Node<B>,
    seats: &mut [Seat<B>],
    spec: &IngestSpec,
    query: &Query,
    files: Vec<R>,
    watch: &W,
) -> Result<Vec<Ingested>, Failure>
    requires spec { spec.now ≡ B.schema }
    requires query { MadeFor B.schema (asked query.now) }
    requires seats { length files.items + 2 ≤ length seats.old }
{
    let stop = Stop::new();
    let policy = PublishAll {
        clock: rt,
        stop: &stop,
        idle: AtomicU32::new(0),
    };
    let count = seats.len();
    let (ingesting, others) = seats.split_at_mut(count - 2);
    let (merging, asking) = others.split_at_mut(1);
    let (stop, policy, merging, asking) = (&stop, &policy, &mut merging[0], &mut asking[0]);
    thread::scope(
        thread::scope_env(),
        rt,
        |scope| -> Result<Vec<Ingested>, Failure>
            requires { (spec.now ≡ B.schema) × MadeFor B.schema (asked query.now) }
        {
            let merger = scope.spawn(move || node.merger(rt, merging, policy, stop).is_ok());
            let asker = scope.spawn(
                move || -> bool
                    requires { MadeFor B.schema (asked query.now) }
                { ask(rt, node, asking, query, stop, watch).is_ok() },
            );
            let told = ingest_each(rt, alloc, scope, node, ingesting, spec, files);
            stop.stop();
            if let Ok(merger) = merger {
                merger.join(rt);
            }
            if let Ok(asker) = asker {
                asker.join(rt);
            }
            told
        },
    )
}

// Ingests each file in a thread of its own.
fn ingest_each<'s, E: 's, B: Books + 's, R: Read + Send + Drop + 's, T: Threads + Wait + Sync + 's>(
    rt: &'s T,
    alloc: Global,
    scope: &Scope<'s, E>,
    node: &'s Node<B>,
    seats: &'s mut [Seat<B>],
    spec: &'s IngestSpec,
    files: Vec<R>,
) -> Result<Vec<Ingested>, Failure>
    requires { spec.now ≡ B.schema }
{
    let mut running = Vec::with_capacity(alloc, files.len())?;
    let mut told = Vec::with_capacity(alloc, files.len())?;
    for (seat, file) in seats.iter_mut().zip(files) {
        running.push(
            scope
                .spawn(
                    move || -> Ingested
                        requires { spec.now ≡ B.schema }
                    { ingest(rt, alloc, node, spec, seat, file) },
                )
                .ok(),
        )?;
    }
    for thread in running {
        told.push(ended(rt, thread))?;
    }
    Ok(told)
}

fn ended<T: Threads>(rt: &T, thread: Option<JoinHandle<Ingested>>) -> Ingested {
    match thread {
        Some(thread) => thread.join(rt),
        None => Ingested {
            tally: Tally {
                unparseable: 0,
                thrown_away: 0,
            },
            refusal: Some(Failure::WorkerNotStarted),
        },
    }
}
