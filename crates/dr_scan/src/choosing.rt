ghost use Rattle.std.specs.Prelude.{◌≡◌, ◌<◌, ℕ, length, IfOk};
ghost use Rattle.dr_answers.specs.Selection.{selects};
ghost use Rattle.dr_ask.specs.Asked.{asked};
ghost use Rattle.dr_columns.specs.Rows.{key_at};
ghost use Rattle.dr_columns.specs.Told.{tells};
ghost use Rattle.dr_scan.specs.Chosen.{IsTold, AreTold};
ghost use Rattle.dr_scan.specs.Rows.{row_in};

use crate::at_once::told_at_once;
use crate::selecting::is_selected;
use dr_ask::Query;
use dr_base::Text;
use dr_columns::{Selection, is_apart, rows_selected};
use dr_fragment::LyingRows;
use dr_image::SegmentView;
use dr_select::filter_of_many;
use std::alloc::{AllocError, Global};

/// Which of these rows a query selects, where they lie in an image, which tells it column by column, or where the filter has many
/// tests. Other rows that were made are asked one by one, and nothing is told of them here. The only error is that memory ran out.
/// Of an image it takes time and memory as [`rows_selected`], and constant time where no row's time lies in the query's intervals;
/// and of other rows as [`select_rows`](dr_select::select_rows).
pub(crate) fn selection(
    alloc: Global,
    query: &Query,
    rows: &LyingRows<'_>,
) -> Result<Option<Selection>, AllocError>
    ensures { IfOk result (λ told. AreTold told (asked query.now) rows.now) }
{
    match rows.view() {
        Some(view) => Ok(Some(selection_in(alloc, query, view)?)),
        None => selection_at_once(alloc, query, rows),
    }
}

/// Which of these rows a query selects, where its filter is asked soonest of many rows at once; of another nothing is told.
fn selection_at_once(
    alloc: Global,
    query: &Query,
    rows: &LyingRows<'_>,
) -> Result<Option<Selection>, AllocError>
    ensures { IfOk result (λ told. AreTold told (asked query.now) rows.now) }
{
    match filter_of_many(&query.filter) {
        Some(filter) => {
            let told = told_at_once(alloc, query, filter, rows)?;
            Ok(Some(Selection::Told(told)))
        }
        None => Ok(None),
    }
}

/// Which rows of an image a query selects; where its intervals hold the time of none, no row is told.
fn selection_in(
    alloc: Global,
    query: &Query,
    view: &SegmentView<'_>,
) -> Result<Selection, AllocError>
    ensures { IfOk result (λ s. (i : ℕ) → i < length view.now.times → tells s i ≡ selects (asked query.now) (key_at view.now i)) }
{
    if is_apart(view, &query.intervals) {
        return Ok(Selection::Told(Vec::new(alloc)));
    }
    rows_selected(alloc, query, view)
}

/// Whether a query selects the row at a place: as it is told, in constant time; and where nothing is, the row is asked. `dims` is
/// memory to use again. The only error is that memory ran out.
pub(crate) fn selects(
    query: &Query,
    told: &Option<Selection>,
    rows: &LyingRows<'_>,
    i: usize,
    dims: &mut Vec<Text>,
) -> Result<bool, AllocError>
    requires place { i < length rows.now }
    requires told { IsTold told.now (asked query.now) rows.now i }
    ensures { IfOk result (λ b. b ≡ selects (asked query.now) (row_in rows.now i).key) }
{
    match told {
        Some(selection) => Ok(selection.holds(i)),
        None => is_selected(query, &rows.row(i), dims),
    }
}
