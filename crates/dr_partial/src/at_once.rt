ghost use Rattle.std.specs.Prelude.{◌≡◌, ◌∷◌, [], ◌<◌, ◌≤◌, Some, length, option_map, slice_range, OnOk};
ghost use Rattle.std.specs.List.{AllByRecursion};
ghost use Rattle.dr_answers.specs.Selection.{passes as passes_of, selects};
ghost use Rattle.dr_ask.specs.Once.{asked_once};
ghost use Rattle.dr_filter.specs.Condition.{condition_in};
ghost use Rattle.dr_time.specs.Instant.{IsInstant};
ghost use Rattle.dr_partial.specs.Grouped.{IsSound, AddsAll};
ghost use Rattle.dr_partial.specs.Partial.{kinds_in};

use crate::rows::add_selected;
use dr_ask::Query;
use dr_base::{Row, Text};
use dr_filter::Filter;
use dr_rollup::{Arrived, Groups, KeyOf};
use dr_select::{lot_end, select_arrived, select_rows};
use std::alloc::AllocError;

/// Adds the rows of an index, of which a filter is asked many at once. `group` is memory to use again.
pub fn add_arrived_at_once(
    groups: &mut Groups,
    group: &mut Vec<Text>,
    query: &Query,
    filter: &Filter,
    rows: &Arrived<'_>,
) -> Result<(), AllocError>
    requires filter { option_map condition_in query.now.filter ≡ Some (condition_in filter.now) }
    requires instants { AllByRecursion (λ r. IsInstant r.key.time) rows.now }
    requires sound { IsSound (kinds_in (asked_once query.now).aggregations) groups.old }
    ensures { OnOk result (AddsAll (asked_once query.now) groups.old rows.now groups.new) }
{
    let count = rows.len();
    let mut from = 0;
    while from < count {
        let to = lot_end(from, count);
        add_arrived_lot(groups, group, query, filter, rows, from, to)?;
        from = to;
    }
    Ok(())
}

// Adds the rows of an index from a place on, up to another, of which the filter is asked at once.
fn add_arrived_lot(
    groups: &mut Groups,
    group: &mut Vec<Text>,
    query: &Query,
    filter: &Filter,
    rows: &Arrived<'_>,
    from: usize,
    to: usize,
) -> Result<(), AllocError>
    requires some { from < to }
    requires within { to ≤ length rows.now }
    requires filter { option_map condition_in query.now.filter ≡ Some (condition_in filter.now) }
    requires instants { AllByRecursion (λ r. IsInstant r.key.time) rows.now }
    requires sound { IsSound (kinds_in (asked_once query.now).aggregations) groups.old }
    ensures { OnOk result (AddsAll (asked_once query.now) groups.old (slice_range rows.now from to) groups.new) }
{
    let told = select_arrived(*group.allocator(), filter, rows, from, to)?;
    for i in from..to {
        let (time, dims, metrics) = rows.row(i);
        let key = KeyOf { time, dims };
        add_told(groups, group, query, told.contains(i - from), &key, metrics)?;
    }
    Ok(())
}

/// Adds the rows of a piece, of which a filter is asked many at once. `group` is memory to use again.
pub fn add_rows_at_once(
    groups: &mut Groups,
    group: &mut Vec<Text>,
    query: &Query,
    filter: &Filter,
    rows: &[Row],
) -> Result<(), AllocError>
    requires filter { option_map condition_in query.now.filter ≡ Some (condition_in filter.now) }
    requires instants { AllByRecursion (λ r. IsInstant r.key.time) rows.now }
    requires sound { IsSound (kinds_in (asked_once query.now).aggregations) groups.old }
    ensures { OnOk result (AddsAll (asked_once query.now) groups.old rows.now groups.new) }
{
    let count = rows.len();
    let mut from = 0;
    while from < count {
        let to = lot_end(from, count);
        add_lot(groups, group, query, filter, &rows[from..to])?;
        from = to;
    }
    Ok(())
}

// Adds rows of which the filter is asked at once.
fn add_lot(
    groups: &mut Groups,
    group: &mut Vec<Text>,
    query: &Query,
    filter: &Filter,
    rows: &[Row],
) -> Result<(), AllocError>
    requires filter { option_map condition_in query.now.filter ≡ Some (condition_in filter.now) }
    requires instants { AllByRecursion (λ r. IsInstant r.key.time) rows.now }
    requires sound { IsSound (kinds_in (asked_once query.now).aggregations) groups.old }
    ensures { OnOk result (AddsAll (asked_once query.now) groups.old rows.now groups.new) }
{
    let told = select_rows(*group.allocator(), filter, rows)?;
    for i in 0..rows.len() {
        let Row { key, metrics } = &rows[i];
        let key = KeyOf {
            time: key.time,
            dims: key.dims.as_slice(),
        };
        add_told(
            groups,
            group,
            query,
            told.contains(i),
            &key,
            metrics.as_slice(),
        )?;
    }
    Ok(())
}

/// Adds a row, where the filter is known to pass it and an interval of the query holds its time.
pub fn add_told(
    groups: &mut Groups,
    group: &mut Vec<Text>,
    query: &Query,
    passed: bool,
    key: &KeyOf<'_>,
    metrics: &[i64],
) -> Result<(), AllocError>
    requires passed { passed ≡ passes_of (option_map condition_in query.now.filter) (record { time = key.now.time; dims = key.now.dims.now }) }
    requires instant { IsInstant key.now.time }
    requires sound { IsSound (kinds_in (asked_once query.now).aggregations) groups.old }
    ensures { OnOk result (AddsAll (asked_once query.now) groups.old (record { key = record { time = key.now.time; dims = key.now.dims.now }; metrics = metrics.now } ∷ []) groups.new) }
{
    let time = key.time;
    let dims = key.dims;
    if !is_told(query, passed, time, dims) {
        return Ok(());
    }
    add_selected(groups, group, query, time, dims, metrics)
}

/// Whether a query selects the rows of a time and of these dimension values, where it is known whether its filter passes them.
pub fn is_told(query: &Query, passed: bool, time: i64, dims: &[Text]) -> bool
    requires { passed ≡ passes_of (option_map condition_in query.now.filter) (record { time = time; dims = dims.now }) }
    ensures { result ≡ selects (asked_once query.now) (record { time = time; dims = dims.now }) }
{
    query.intervals.contains(time) && passed
}
