ghost use Rattle.std.specs.Prelude.{◌≡◌, IfOk};
ghost use Rattle.std.specs.List.{All, AllByRecursion};
ghost use Rattle.dr_ask.specs.Once.{asked_once};
ghost use Rattle.dr_intervals.specs.Printable.{StartsPrintable};
ghost use Rattle.dr_partial.specs.Partial.{partial};
ghost use Rattle.dr_time.specs.Instant.{IsInstant};
ghost use Rattle.dr_time.specs.Printed.{IsPrintable};
ghost use Rattle.dr_workers.specs.Shared.{rows_of};

use crate::gate::Gate;
use crate::open_gate::OpenGate;
use crate::working::partial_of;
use dr_ask::Query;
use dr_fragment::SharedFragment;
use dr_partial::Partial;
use std::alloc::{AllocError, Global};

/// The groups of a timeseries or groupBy over the rows of all ranges, whose times lie from 0001-01-01 to 9999-12-31, by this
/// thread alone: the rows of each range in turn are added to the groups of those before it. The only error is that memory ran out. It
/// takes the expected time that [`Partial::add_fragment`] takes for each range, and memory by the groups. A filter of many tests is
/// asked of the rows of small ranges together, as [`partial_of`] says, which takes memory for fewer than 17,408 of them.
pub fn scatter_one(
    alloc: Global,
    query: &Query,
    fragments: &[SharedFragment],
) -> Result<Partial, AllocError>
    requires { AllByRecursion (λ r. IsInstant r.key.time) (rows_of fragments.now) }
    ensures value { IfOk result (λ p. p ≡ partial (asked_once query.now) (rows_of fragments.now)) }
    ensures printable { All StartsPrintable query.now.intervals → IfOk result (λ p. AllByRecursion (λ g. IsPrintable g.key.time) p) }
{
    scatter_here(alloc, query, fragments, &OpenGate)
}

/// What [`scatter_one`] gives, with the gate entered before each range. Error and cost are those of `scatter_one`.
pub fn scatter_here<G: Gate>(
    alloc: Global,
    query: &Query,
    fragments: &[SharedFragment],
    gate: &G,
) -> Result<Partial, AllocError>
    requires { AllByRecursion (λ r. IsInstant r.key.time) (rows_of fragments.now) }
    ensures value { IfOk result (λ p. p ≡ partial (asked_once query.now) (rows_of fragments.now)) }
    ensures printable { All StartsPrintable query.now.intervals → IfOk result (λ p. AllByRecursion (λ g. IsPrintable g.key.time) p) }
{
    partial_of(alloc, query, 0, fragments, gate)
}
