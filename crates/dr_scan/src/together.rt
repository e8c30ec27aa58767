ghost use Rattle.std.specs.Prelude.{◌≡◌, ◌++◌, ◌∷◌, Some, List, map, option_map, IfOk};
ghost use Rattle.std.specs.List.{flat_map};
ghost use Rattle.dr_answers.specs.Selection.{selects};
ghost use Rattle.dr_ask.specs.Asked.{asked};
ghost use Rattle.dr_base.specs.declared.row.Row.{Row};
ghost use Rattle.dr_filter.specs.Condition.{condition_in};
ghost use Rattle.dr_scan.specs.Chosen.{AreEachTold, AreTold};
ghost use Rattle.dr_scan.specs.Together.{AreLeft};

use crate::holding::{held_rows, lie_apart};
use dr_ask::Query;
use dr_columns::Selection;
use dr_filter::Filter;
use dr_fragment::{LyingRows, RowRef};
use dr_rowindex::RowSet;
use dr_select::select_rows;
use std::alloc::{AllocError, Global};

/// Of each of some segments, which of its rows a query selects, whose filter is asked of the rows of all of them together. The only error
/// is that memory ran out. It takes what [`select_rows`] takes of the rows whose times lie in the query's intervals, which are
/// copied meanwhile, and a truth for each row.
pub(crate) fn told_together(
    alloc: Global,
    query: &Query,
    filter: &Filter,
    segments: &[LyingRows<'_>],
) -> Result<Vec<Option<Selection>>, AllocError>
    requires { option_map condition_in query.now.filter ≡ Some (condition_in filter.now) }
    ensures { IfOk result (λ told. AreEachTold (asked query.now) told.items segments.now) }
{
    let lot = held_rows(alloc, query, segments)?;
    let passed = select_rows(alloc, filter, lot.as_slice())?;
    tell_each(alloc, query, segments, &passed)
}

// The same, where it is known which of the rows that the intervals hold pass the filter.
fn tell_each(
    alloc: Global,
    query: &Query,
    segments: &[LyingRows<'_>],
    passed: &RowSet,
) -> Result<Vec<Option<Selection>>, AllocError>
    requires { AreLeft (asked query.now) passed.now 0 (flat_map (λ rows. rows) segments.now) }
    ensures { IfOk result (λ told. AreEachTold (asked query.now) told.items segments.now) }
{
    let mut told = Vec::with_capacity(alloc, segments.len())?;
    let mut next = 0;
    for rows in segments {
        let selection = tell_segment(alloc, query, rows, passed, &mut next)?;
        told.push(Some(selection))?;
    }
    Ok(told)
}

// Which rows of a segment the query selects. The next row that the intervals hold is the one at a place among all of these.
fn tell_segment(
    alloc: Global,
    query: &Query,
    rows: &LyingRows<'_>,
    passed: &RowSet,
    next: &mut usize,
) -> Result<Selection, AllocError>
    ensures { IfOk result (λ s. (rest : List Row) → AreLeft (asked query.now) passed.now next.old (rows.now ++ rest) → AreTold (Some s) (asked query.now) rows.now × AreLeft (asked query.now) passed.now next.new rest) }
{
    if lie_apart(query, rows) {
        return Ok(Selection::Told(Vec::new(alloc)));
    }
    let told = tell_rows(alloc, query, rows, passed, next)?;
    Ok(Selection::Told(told))
}

// Of each row, whether the query selects it.
fn tell_rows(
    alloc: Global,
    query: &Query,
    rows: &LyingRows<'_>,
    passed: &RowSet,
    next: &mut usize,
) -> Result<Vec<bool>, AllocError>
    ensures { IfOk result (λ told. (rest : List Row) → AreLeft (asked query.now) passed.now next.old (rows.now ++ rest) → (told.items ≡ map (λ r. selects (asked query.now) r.key) rows.now) × AreLeft (asked query.now) passed.now next.new rest) }
{
    let mut told = Vec::with_capacity(alloc, rows.len())?;
    for i in 0..rows.len() {
        let truth = tell_row(query, &rows.row(i), passed, next);
        told.push(truth)?;
    }
    Ok(told)
}

fn tell_row(query: &Query, row: &RowRef<'_>, passed: &RowSet, next: &mut usize) -> bool
    ensures { (rest : List Row) → AreLeft (asked query.now) passed.now next.old (row.now ∷ rest) → (result ≡ selects (asked query.now) row.now.key) × AreLeft (asked query.now) passed.now next.new rest }
{
    if !query.intervals.contains(row.time()) {
        return false;
    }
    let place = *next;
    if place >= passed.row_count() {
        return false;
    }
    *next = place + 1;
    passed.contains(place)
}
