ghost use Rattle.std.specs.Prelude.{◌≡◌, ◌<◌, IfErr, IfOk, length};
ghost use Rattle.std.specs.List.{All, AllByRecursion};
ghost use Rattle.dr_ask.specs.Once.{asked_once};
ghost use Rattle.dr_intervals.specs.Printable.{StartsPrintable};
ghost use Rattle.dr_partial.specs.Partial.{partial};
ghost use Rattle.dr_scatter.specs.declared.scatter_error.ScatterError.TheVariants.{NoMemory};
ghost use Rattle.dr_time.specs.Instant.{IsInstant};
ghost use Rattle.dr_time.specs.Printed.{IsPrintable};
ghost use Rattle.dr_workers.specs.Shared.{rows_of};

use dr_ask::Query;
use dr_fragment::SharedFragment;
use dr_partial::Partial;
use dr_scatter::{ScatterError, scatter};
use dr_workers::{Gate, scatter_here};
use std::alloc::Global;
use std::sync::Wait;
use std::thread::Threads;

/// The groups of a query over the rows of all ranges, by as many workers as are asked for: by this thread alone where that is
/// one, or where there are fewer than two ranges. Refusals are those of [`scatter`].
pub fn partial_by<R: Threads + Wait + Sync, G: Gate + Sync>(
    rt: &R,
    alloc: Global,
    query: &Query,
    fragments: &[SharedFragment],
    workers: usize,
    gate: &G,
) -> Result<Partial, ScatterError>
    requires { AllByRecursion (λ r. IsInstant r.key.time) (rows_of fragments.now) }
    ensures value { IfOk result (λ p. p ≡ partial (asked_once query.now) (rows_of fragments.now)) }
    ensures printable { All StartsPrintable query.now.intervals → IfOk result (λ p. AllByRecursion (λ g. IsPrintable g.key.time) p) }
    ensures alone { workers < 2 → IfErr result (λ e. e ≡ NoMemory) }
    ensures few { length fragments.now < 2 → IfErr result (λ e. e ≡ NoMemory) }
{
    if workers < 2 {
        return Ok(scatter_here(alloc, query, fragments, gate)?);
    }
    if fragments.len() < 2 {
        return Ok(scatter_here(alloc, query, fragments, gate)?);
    }
    scatter(rt, alloc, query, fragments, workers, gate)
}
