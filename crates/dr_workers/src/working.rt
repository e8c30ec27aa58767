ghost use Rattle.std.specs.Prelude.{IfOk};
ghost use Rattle.std.specs.List.{AllByRecursion};
ghost use Rattle.dr_time.specs.Instant.{IsInstant};
ghost use Rattle.dr_workers.specs.Shared.{rows_of, IsFoldOf};

use crate::gate::Gate;
use crate::gathering::{with_range, with_waiting};
use dr_ask::Query;
use dr_fragment::SharedFragment;
use dr_partial::Partial;
use dr_select::filter_of_many;
use std::alloc::{AllocError, Global};

/// The groups of the rows of ranges that stand next to each other, of which the first has that number among all of them: the rows
/// of each range in turn, before which the gate is entered, are added to the groups of those before it. The only error is that
/// memory ran out. It takes what [`Partial::add_fragment`] takes for each range.
///
/// Where the filter has so many tests that it is asked soonest of many rows at once, the rows of each range of fewer than 1024 are copied,
/// but for those whose times no interval of the query holds. They wait until there are 16,384 or more, a larger range comes, or the last
/// range is done, and are then added together, which takes what [`Partial::add_rows`] takes. The copies take time by these rows and
/// the bytes of their dimension values, n log n in the rows of each range that is an index, and memory for fewer than 17,408 rows.
/// With any other filter nothing is copied.
pub fn partial_of<G: Gate>(
    alloc: Global,
    query: &Query,
    first: usize,
    fragments: &[SharedFragment],
    gate: &G,
) -> Result<Partial, AllocError>
    requires { AllByRecursion (λ r. IsInstant r.key.time) (rows_of fragments.now) }
    ensures { IfOk result (IsFoldOf query.now (rows_of fragments.now)) }
{
    let at_once = filter_of_many(&query.filter).is_some();
    let mut groups = Partial::of_rows(alloc, query, &[])?;
    let mut waiting = Vec::new(alloc);
    for i in 0..fragments.len() {
        gate.enter(first.saturating_add(i));
        groups = with_range(alloc, groups, &mut waiting, query, at_once, &fragments[i])?;
    }
    with_waiting(groups, &mut waiting, query)
}
