ghost use Rattle.std.specs.Prelude.{◌<◌, ◌≤◌, length, IfOk, OnOk, slice_range};
ghost use Rattle.std.specs.List.{AllByRecursion};
ghost use Rattle.dr_time.specs.Instant.{IsInstant};
ghost use Rattle.dr_ask.specs.Once.{asked_once};
ghost use Rattle.dr_partial.specs.Grouped.{IsSound, AddsAll};
ghost use Rattle.dr_partial.specs.Partial.{kinds_in};

use crate::arrived_runs::{add_run, run_end};
use crate::at_once::add_arrived_at_once;
use crate::window::Window;
use dr_ask::Query;
use dr_base::Text;
use dr_rollup::{Arrived, Groups, OpenIndex};
use dr_select::filter_of_many;
use std::alloc::AllocError;

/// Adds the rows of an open index, as they lie there. `group` is memory to use again.
pub fn add_index(
    groups: &mut Groups,
    group: &mut Vec<Text>,
    query: &Query,
    index: &OpenIndex,
) -> Result<(), AllocError>
    requires instants { AllByRecursion (λ r. IsInstant r.key.time) index.now.rows }
    requires sound { IsSound (kinds_in (asked_once query.now).aggregations) groups.old }
    ensures { OnOk result (AddsAll (asked_once query.now) groups.old index.now.rows groups.new) }
{
    add_arrived(groups, group, query, &index.arrived())
}

// Adds rows in the order in which their keys came.
fn add_arrived(
    groups: &mut Groups,
    group: &mut Vec<Text>,
    query: &Query,
    rows: &Arrived<'_>,
) -> Result<(), AllocError>
    requires instants { AllByRecursion (λ r. IsInstant r.key.time) rows.now }
    requires sound { IsSound (kinds_in (asked_once query.now).aggregations) groups.old }
    ensures { OnOk result (AddsAll (asked_once query.now) groups.old rows.now groups.new) }
{
    match filter_of_many(&query.filter) {
        Some(filter) => add_arrived_at_once(groups, group, query, filter, rows),
        None => add_runs(groups, group, query, rows),
    }
}

// Adds rows, those that lie in the same interval and the same bucket after others that do.
fn add_runs(
    groups: &mut Groups,
    group: &mut Vec<Text>,
    query: &Query,
    rows: &Arrived<'_>,
) -> Result<(), AllocError>
    requires instants { AllByRecursion (λ r. IsInstant r.key.time) rows.now }
    requires sound { IsSound (kinds_in (asked_once query.now).aggregations) groups.old }
    ensures { OnOk result (AddsAll (asked_once query.now) groups.old rows.now groups.new) }
{
    let count = rows.len();
    let mut from = 0;
    while from < count {
        from = add_from(groups, group, query, rows, from)?;
    }
    Ok(())
}

// Adds the row at a place and those behind it that lie in the same interval and the same bucket, up to the first that doesn't.
// Answers the place of that one.
fn add_from(
    groups: &mut Groups,
    group: &mut Vec<Text>,
    query: &Query,
    rows: &Arrived<'_>,
    from: usize,
) -> Result<usize, AllocError>
    requires from { from < length rows.now }
    requires instants { AllByRecursion (λ r. IsInstant r.key.time) rows.now }
    requires sound { IsSound (kinds_in (asked_once query.now).aggregations) groups.old }
    ensures more { IfOk result (λ to. from < to) }
    ensures within { IfOk result (λ to. to ≤ length rows.now) }
    ensures adds { IfOk result (λ to. AddsAll (asked_once query.now) groups.old (slice_range rows.now from to) groups.new) }
{
    let _ = rows.len();
    let (time, _, _) = rows.row(from);
    if !query.intervals.contains(time) {
        return Ok(from + 1);
    }
    let window = Window::around(query, time);
    let to = run_end(rows, &window, from + 1);
    add_run(groups, group, query, rows, window.bucket, from, to)?;
    Ok(to)
}
