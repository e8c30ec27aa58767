ghost use Rattle.std.specs.Prelude.{IfOk, ◌≤◌, ◌<◌, length};
ghost use Rattle.std.specs.List.{AllByRecursion};
ghost use Rattle.std.specs.Thread.{IsSync};
ghost use Rattle.dr_time.specs.Instant.{IsInstant};
ghost use Rattle.dr_workers.specs.Shared.{rows_of, IsFoldOf};
ghost use Rattle.dr_scatter.specs.Folds.{AreFoldsOver, AreFoldsOverWhereOk};

use crate::scatter_error::ScatterError;
use crate::sharing::begin_of;
use dr_ask::Query;
use dr_fragment::SharedFragment;
use dr_partial::Partial;
use dr_workers::{Gate, partial_of};
use std::alloc::{AllocError, Global};
use std::sync::Wait;
use std::thread;
use std::thread::{Promise, Threads};

// The groups of a query over the rows of a share of the ranges.
#[derive(Clone, Copy)]
struct FoldOf<'a> {
    query: &'a Query,
    share: &'a [SharedFragment],
}

impl<'a> Promise<Result<Partial, AllocError>> for FoldOf<'a> {
    ghost kept_by = { λ p r. IfOk r (IsFoldOf p.query.now (rows_of p.share.now)) };
}

/// The groups of each worker's share of the ranges, by a thread for each. Refusals: 0 `NoMemory`, and 80 `WorkerNotStarted`
/// where the system refused a thread.
pub fn partials<R: Threads + Wait, G: Gate + Sync>(
    rt: &R,
    alloc: Global,
    query: &Query,
    fragments: &[SharedFragment],
    workers: usize,
    gate: &G,
) -> Result<Vec<Partial>, ScatterError>
    requires instants { AllByRecursion (λ r. IsInstant r.key.time) (rows_of fragments.now) }
    requires few { workers ≤ 16 }
    requires some { 0 < length fragments.now → 0 < workers }
    ensures { IfOk result (λ parts. AreFoldsOver query.now (rows_of fragments.now) parts.items) }
{
    let results = results(rt, alloc, query, fragments, workers, gate)?;
    let mut parts = Vec::with_capacity(alloc, results.len())?;
    for result in results {
        parts.push(result?)?;
    }
    Ok(parts)
}

fn results<R: Threads + Wait, G: Gate + Sync>(
    rt: &R,
    alloc: Global,
    query: &Query,
    fragments: &[SharedFragment],
    workers: usize,
    gate: &G,
) -> Result<Vec<Result<Partial, AllocError>>, ScatterError>
    requires instants { AllByRecursion (λ r. IsInstant r.key.time) (rows_of fragments.now) }
    requires few { workers ≤ 16 }
    requires some { 0 < length fragments.now → 0 < workers }
    ensures { IfOk result (λ results. AreFoldsOverWhereOk query.now (rows_of fragments.now) results.items) }
{
    thread::scope(
        thread::scope_env(),
        rt,
        |scope| -> Result<Vec<Result<Partial, AllocError>>, ScatterError>
            requires { IsSync G.row × AllByRecursion (λ r. IsInstant r.key.time) (rows_of fragments.now) × (workers ≤ 16) × (0 < length fragments.now → 0 < workers) }
            ensures { IfOk result (λ results. AreFoldsOverWhereOk query.entry.now (rows_of fragments.entry.now) results.items) }
        {
            let mut children = Vec::with_capacity(alloc, workers)?;
            let mut from = 0;
            'workers: for k in 0..workers {
                let to = begin_of(k + 1, fragments.len(), workers);
                let share = &fragments[from..to];
                match scope.spawn_with(
                    FoldOf { query, share },
                    move || -> Result<Partial, AllocError>
                        requires { AllByRecursion (λ r. IsInstant r.key.time) (rows_of share.now) }
                        ensures { IfOk result (IsFoldOf query.entry.now (rows_of share.entry.now)) }
                    { partial_of(alloc, query, from, share, gate) },
                ) {
                    Ok(child) => children.push(child)?,
                    Err(_) => return Err(ScatterError::WorkerNotStarted),
                }
                from = to;
            }
            Ok(thread::join_promised(rt, children)?)
        },
    )
}
