ghost use Rattle.std.specs.Prelude.{◌≡◌, ◌++◌, ◌∷◌, [], true, IfOk, OnOk};
ghost use Rattle.std.specs.List.{flat_map};
ghost use Rattle.dr_scan.specs.Together.{AreApart, held};
ghost use Rattle.dr_ask.specs.Asked.{asked};

use dr_ask::Query;
use dr_base::Row;
use dr_columns::is_apart;
use dr_fragment::{LyingRows, RowRef};
use std::alloc::{AllocError, Global};

/// Copies of the rows of some segments, one segment after another, whose times lie in the intervals of a query. The only error is that
/// memory ran out. It takes time by the rows, but for those of an image that lies outside the intervals, and memory by those that are
/// copied.
pub(crate) fn held_rows(
    alloc: Global,
    query: &Query,
    segments: &[LyingRows<'_>],
) -> Result<Vec<Row>, AllocError>
    ensures { IfOk result (λ lot. lot.items ≡ flat_map (held (asked query.now)) segments.now) }
{
    let mut lot = Vec::new(alloc);
    for rows in segments {
        put_held(alloc, &mut lot, query, rows)?;
    }
    Ok(lot)
}

// Puts those of a segment behind others.
fn put_held(
    alloc: Global,
    lot: &mut Vec<Row>,
    query: &Query,
    rows: &LyingRows<'_>,
) -> Result<(), AllocError>
    ensures { OnOk result (lot.new.items ≡ lot.old.items ++ held (asked query.now) rows.now) }
{
    if lie_apart(query, rows) {
        return Ok(());
    }
    put_each(alloc, lot, query, rows)
}

/// Whether no interval of a query holds the time of any of these rows, where the least and the greatest time of an image tell it. It
/// takes time logarithmic in the number of the intervals.
pub(crate) fn lie_apart(query: &Query, rows: &LyingRows<'_>) -> bool
    ensures { result ≡ true → AreApart (asked query.now) rows.now }
{
    match rows.view() {
        Some(view) => is_apart(view, &query.intervals),
        None => false,
    }
}

fn put_each(
    alloc: Global,
    lot: &mut Vec<Row>,
    query: &Query,
    rows: &LyingRows<'_>,
) -> Result<(), AllocError>
    ensures { OnOk result (lot.new.items ≡ lot.old.items ++ held (asked query.now) rows.now) }
{
    for i in 0..rows.len() {
        put_if_held(alloc, lot, query, &rows.row(i))?;
    }
    Ok(())
}

fn put_if_held(
    alloc: Global,
    lot: &mut Vec<Row>,
    query: &Query,
    row: &RowRef<'_>,
) -> Result<(), AllocError>
    ensures { OnOk result (lot.new.items ≡ lot.old.items ++ held (asked query.now) (row.now ∷ [])) }
{
    if !query.intervals.contains(row.time()) {
        return Ok(());
    }
    lot.push(row.copy(alloc)?)?;
    Ok(())
}
