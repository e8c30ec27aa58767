ghost use Rattle.std.specs.Prelude.{◌≡◌, ◌<◌, ◌≤◌, Some, length, slice_get, IfOk, OnOk};
ghost use Rattle.dr_answers.specs.Selection.{selected};
ghost use Rattle.dr_ask.specs.Asked.{asked};
ghost use Rattle.dr_scan.specs.Window.{after};

use crate::selecting::is_selected;
use crate::window::Window;
use dr_ask::Query;
use dr_fragment::RowRef;
use dr_rollup::Arrived;
use std::alloc::{AllocError, Global};

/// Leaves out the rows that a query selects among those of an index, of which the window gives none: they are counted as they lie.
/// The only error is that memory ran out. It takes time by the rows, with the filter for each, and sorts none.
pub(crate) fn leave_out(
    alloc: Global,
    window: &mut Window,
    query: &Query,
    rows: &Arrived<'_>,
) -> Result<(), AllocError>
    requires { length rows.now ≤ window.old.skip }
    ensures { OnOk result (window.new ≡ after window.old (length (selected (asked query.now) rows.now))) }
{
    let count = count_selected(alloc, query, rows)?;
    window.skip -= count;
    Ok(())
}

/// How many rows a query selects.
fn count_selected(alloc: Global, query: &Query, rows: &Arrived<'_>) -> Result<u64, AllocError>
    ensures { IfOk result (λ n. n ≡ length (selected (asked query.now) rows.now)) }
{
    let mut dims = Vec::new(alloc);
    let mut count = 0u64;
    for i in 0..rows.len() {
        let row = row_at(rows, i);
        if !is_selected(query, &row, &mut dims)? {
            continue;
        }
        count += 1;
    }
    Ok(count)
}

fn row_at<'a>(rows: &Arrived<'a>, i: usize) -> RowRef<'a>
    requires { i < length rows.now }
    ensures { slice_get rows.now i ≡ Some result }
{
    let (time, dims, metrics) = rows.row(i);
    RowRef::of_parts(time, dims, metrics)
}
