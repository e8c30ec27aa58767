ghost use Rattle.std.specs.Prelude.{◌≡◌, ◌<◌, ◌≤◌, ◌++◌, Some, length, map, option_map, slice_range, IfOk, OnOk};
ghost use Rattle.dr_answers.specs.Selection.{passes, selects};
ghost use Rattle.dr_ask.specs.Asked.{asked};
ghost use Rattle.dr_filter.specs.Condition.{condition_in};

use dr_ask::Query;
use dr_base::{Key, Row};
use dr_filter::Filter;
use dr_fragment::LyingRows;
use dr_select::{lot_end, select_rows};
use std::alloc::{AllocError, Global};

/// Of each of these rows, whether a query selects it, whose filter is asked of many at once. The only error is that memory ran out.
pub(crate) fn told_at_once(
    alloc: Global,
    query: &Query,
    filter: &Filter,
    rows: &LyingRows<'_>,
) -> Result<Vec<bool>, AllocError>
    requires { option_map condition_in query.now.filter ≡ Some (condition_in filter.now) }
    ensures { IfOk result (λ told. told.items ≡ map (λ r. selects (asked query.now) r.key) rows.now) }
{
    let count = rows.len();
    let mut told = Vec::with_capacity(alloc, count)?;
    let mut from = 0;
    while from < count {
        let to = lot_end(from, count);
        put_told(alloc, &mut told, query, filter, rows, from, to)?;
        from = to;
    }
    Ok(told)
}

/// Puts that of the rows from a place on, up to another, behind that of others.
fn put_told(
    alloc: Global,
    told: &mut Vec<bool>,
    query: &Query,
    filter: &Filter,
    rows: &LyingRows<'_>,
    from: usize,
    to: usize,
) -> Result<(), AllocError>
    requires some { from < to }
    requires within { to ≤ length rows.now }
    requires filter { option_map condition_in query.now.filter ≡ Some (condition_in filter.now) }
    ensures { OnOk result (told.new.items ≡ told.old.items ++ map (λ r. selects (asked query.now) r.key) (slice_range rows.now from to)) }
{
    let lot = rows_between(alloc, rows, from, to)?;
    let passed = select_rows(alloc, filter, lot.as_slice())?;
    for i in 0..lot.len() {
        let truth = is_told(query, passed.contains(i), &lot[i].key);
        told.push(truth)?;
    }
    Ok(())
}

/// Whether a query selects the rows of a key, where it is known whether its filter passes them.
fn is_told(query: &Query, passed: bool, key: &Key) -> bool
    requires { passed ≡ passes (option_map condition_in query.now.filter) key.now }
    ensures { result ≡ selects (asked query.now) key.now }
{
    query.intervals.contains(key.time) && passed
}

/// The rows from a place on, up to another, in memory of their own.
fn rows_between(
    alloc: Global,
    rows: &LyingRows<'_>,
    from: usize,
    to: usize,
) -> Result<Vec<Row>, AllocError>
    requires some { from < to }
    requires within { to ≤ length rows.now }
    ensures { IfOk result (λ lot. lot.items ≡ slice_range rows.now from to) }
{
    let mut lot = Vec::with_capacity(alloc, to - from)?;
    for i in from..to {
        lot.push(rows.row(i).copy(alloc)?)?;
    }
    Ok(lot)
}
