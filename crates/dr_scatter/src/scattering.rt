ghost use Rattle.std.specs.Prelude.{◌≡◌, IfOk};
ghost use Rattle.std.specs.List.{All, AllByRecursion};
ghost use Rattle.dr_ask.specs.Once.{asked_once};
ghost use Rattle.dr_intervals.specs.Printable.{StartsPrintable};
ghost use Rattle.dr_partial.specs.Partial.{partial};
ghost use Rattle.dr_time.specs.Instant.{IsInstant};
ghost use Rattle.dr_time.specs.Printed.{IsPrintable};
ghost use Rattle.dr_workers.specs.Shared.{rows_of};

use crate::merging::merged;
use crate::scatter_error::ScatterError;
use crate::sharing::worker_count;
use crate::threads::partials;
use dr_ask::Query;
use dr_fragment::SharedFragment;
use dr_partial::Partial;
use dr_workers::Gate;
use std::alloc::Global;
use std::sync::Wait;
use std::thread::Threads;

/// What [`dr_workers::scatter_one`] gives, whatever the number of workers and the gate, by threads of their own.
///
/// There are as many workers as are asked for, at least 1 and at most 16, but no more than ranges. Of f ranges and w workers,
/// worker k works on those from floor(k f / w) to before floor((k + 1) f / w), and enters the gate before each. What they
/// found is merged as a tree whose two halves are merged at once. Without a range no thread is started.
///
/// Refusals: 0 `NoMemory`, and 80 `WorkerNotStarted` where the system refused a thread. It takes the time of the slowest
/// worker and of merging, and memory by the groups that each worker found.
pub fn scatter<R: Threads + Wait + Sync, G: Gate + Sync>(
    rt: &R,
    alloc: Global,
    query: &Query,
    fragments: &[SharedFragment],
    workers: usize,
    gate: &G,
) -> Result<Partial, ScatterError>
    requires { AllByRecursion (λ r. IsInstant r.key.time) (rows_of fragments.now) }
    ensures value { IfOk result (λ p. p ≡ partial (asked_once query.now) (rows_of fragments.now)) }
    ensures printable { All StartsPrintable query.now.intervals → IfOk result (λ p. AllByRecursion (λ g. IsPrintable g.key.time) p) }
{
    let workers = worker_count(workers, fragments.len());
    let parts = partials(rt, alloc, query, fragments, workers, gate)?;
    Ok(merged(rt, alloc, query, parts)?)
}
