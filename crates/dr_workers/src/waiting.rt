ghost use Rattle.std.specs.Prelude.{◌≡◌, ◌∷◌, [], true, OnOk};
ghost use Rattle.dr_workers.specs.Gathered.{AreApart, ArePut};

use dr_ask::Query;
use dr_base::Row;
use dr_columns::is_apart;
use dr_fragment::{LyingRows, RowRef, SharedFragment};
use std::alloc::{AllocError, Global};

/// Puts copies of the rows of a range behind others, but for those whose time no interval of the query holds. The only error is that
/// memory ran out. It takes time by the rows, and time and memory by those that are copied and the bytes of their dimension values; of
/// an index, n log n in its rows; and of an image that lies outside the intervals it takes time logarithmic in their number.
pub(crate) fn put_rows(
    alloc: Global,
    waiting: &mut Vec<Row>,
    query: &Query,
    fragment: &SharedFragment,
) -> Result<(), AllocError>
    ensures { OnOk result (ArePut query.now waiting.old.items fragment.now.rows waiting.new.items) }
{
    let rows = fragment.ordered()?;
    if lie_apart(query, &rows) {
        return Ok(());
    }
    put_each(alloc, waiting, query, &rows)
}

// Whether no interval holds the time of any of these rows, where the least and the greatest time of an image tell it.
fn lie_apart(query: &Query, rows: &LyingRows<'_>) -> bool
    ensures { result ≡ true → AreApart query.now rows.now }
{
    match rows.view() {
        Some(view) => is_apart(view, &query.intervals),
        None => false,
    }
}

fn put_each(
    alloc: Global,
    waiting: &mut Vec<Row>,
    query: &Query,
    rows: &LyingRows<'_>,
) -> Result<(), AllocError>
    ensures { OnOk result (ArePut query.now waiting.old.items rows.now waiting.new.items) }
{
    for i in 0..rows.len() {
        put_row(alloc, waiting, query, &rows.row(i))?;
    }
    Ok(())
}

fn put_row(
    alloc: Global,
    waiting: &mut Vec<Row>,
    query: &Query,
    row: &RowRef<'_>,
) -> Result<(), AllocError>
    ensures { OnOk result (ArePut query.now waiting.old.items (row.now ∷ []) waiting.new.items) }
{
    if !query.intervals.contains(row.time()) {
        return Ok(());
    }
    waiting.push(row.copy(alloc)?)?;
    Ok(())
}
