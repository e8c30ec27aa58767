ghost use Rattle.std.specs.Prelude.{◌≡◌, ◌<◌, ◌≤◌, ◌++◌, ◌-◌, not, length, map, IfOk, OnOk};
ghost use Rattle.std.specs.List.{range_with_len};
ghost use Rattle.dr_filter.specs.Condition.{condition_in};
ghost use Rattle.dr_image.specs.Table.{row_at};
ghost use Rattle.dr_columns.specs.Rows.{Narrows, meets};

use crate::telling::drop_where;
use dr_base::Row;
use dr_filter::Filter;
use dr_image::SegmentView;
use dr_select::{lot_end, select_rows};
use std::alloc::{AllocError, Global};

// Makes false what is told of the rows of an image that a filter doesn't keep, of which it is asked many at once. The only error is
// that memory ran out.
pub(crate) fn narrow_at_once(
    alloc: Global,
    view: &SegmentView<'_>,
    filter: &Filter,
    told: &mut [bool],
) -> Result<(), AllocError>
    requires { length told.old ≡ length view.now.times }
    ensures { OnOk result (Narrows (meets view.now (condition_in filter.now)) told.old told.new) }
{
    let failed = failures(alloc, view, filter)?;
    drop_where(told, failed.as_slice());
    Ok(())
}

// Of each row, whether a filter drops it.
fn failures(alloc: Global, view: &SegmentView<'_>, filter: &Filter) -> Result<Vec<bool>, AllocError>
    ensures { IfOk result (λ failed. failed.items ≡ map (λ i. not (meets view.now (condition_in filter.now) i)) (range_with_len 0 (length view.now.times))) }
{
    let count = view.row_count();
    let mut failed = Vec::with_capacity(alloc, count)?;
    let mut from = 0;
    while from < count {
        let to = lot_end(from, count);
        put_failures(alloc, view, filter, &mut failed, from, to)?;
        from = to;
    }
    Ok(failed)
}

// Puts that of the rows from a number on, up to another, behind that of others.
fn put_failures(
    alloc: Global,
    view: &SegmentView<'_>,
    filter: &Filter,
    failed: &mut Vec<bool>,
    from: usize,
    to: usize,
) -> Result<(), AllocError>
    requires some { from < to }
    requires within { to ≤ length view.now.times }
    ensures { OnOk result (failed.new.items ≡ failed.old.items ++ map (λ i. not (meets view.now (condition_in filter.now) i)) (range_with_len from (to - from))) }
{
    let rows = rows_between(alloc, view, from, to)?;
    let kept = select_rows(alloc, filter, rows.as_slice())?;
    for i in 0..to - from {
        failed.push(!kept.contains(i))?;
    }
    Ok(())
}

// The rows from a number on, up to another, in memory of their own.
fn rows_between(
    alloc: Global,
    view: &SegmentView<'_>,
    from: usize,
    to: usize,
) -> Result<Vec<Row>, AllocError>
    requires some { from < to }
    requires within { to ≤ length view.now.times }
    ensures { IfOk result (λ rows. rows.items ≡ map (row_at view.now) (range_with_len from (to - from))) }
{
    let mut rows = Vec::with_capacity(alloc, to - from)?;
    for i in from..to {
        rows.push(view.row(alloc, i)?)?;
    }
    Ok(rows)
}
