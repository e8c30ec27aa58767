ghost use Rattle.std.specs.Prelude.{◌≡◌, ◌≤◌, [], pos, length, map, get_or, IfOk, OnOk};
ghost use Rattle.std.specs.List.{range_with_len};
ghost use Rattle.dr_image.specs.Image.{values_of, metric_of, column_of, table_of};
ghost use Rattle.dr_segment.specs.Encoding.{sealed};
ghost use Rattle.dr_segment.specs.Columns.{AddsRow};
ghost use Rattle.dr_segment.specs.Tables.{column_seen, table_seen};

use crate::columns::Columns;
use crate::dimension::Dimension;
use crate::first_values::first_values;
use crate::ranking::{ranked, ranks, ranks_at, texts_of};
use dr_base::{Row, Text};
use dr_schema::Schema;
use std::alloc::{AllocError, Global};

// The columns of the rows of a range of a chunk.
#[tactic(auto, unfolding(dr_image::specs::Image::table_of))]
pub(crate) fn columns_of<'a>(
    alloc: Global,
    schema: &Schema,
    chunk: i64,
    from: u64,
    to: u64,
    rows: &'a [Row],
    empty: &'a Text,
) -> Result<Columns<'a>, AllocError>
    requires empty { empty.now ≡ [] }
    requires few { length rows.now ≤ 134217728 }
    ensures { IfOk result (λ columns. table_seen columns ≡ table_of (sealed schema.now chunk from to rows.now)) }
{
    Ok(Columns {
        rollup: schema.rollup(),
        chunk,
        from,
        to,
        times: times_of(alloc, rows)?,
        metrics: metrics_of(alloc, rows, schema.metrics().len())?,
        dims: dimensions_of(alloc, rows, schema.dimensions().len(), empty)?,
    })
}

// The times of rows.
fn times_of(alloc: Global, rows: &[Row]) -> Result<Vec<i64>, AllocError>
    ensures { IfOk result (λ times. times.items ≡ map (λ r. r.key.time) rows.now) }
{
    let mut times = Vec::with_capacity(alloc, rows.len())?;
    for row in rows {
        times.push(row.key.time)?;
    }
    Ok(times)
}

// The value of a row in a metric, 0 where there are fewer.
fn metric_at(row: &Row, m: usize) -> i64
    ensures { result ≡ get_or row.now.metrics m (pos 0) }
{
    row.metrics.get(m).unwrap_or(0)
}

// The values of rows in so many metrics. Each row is read once.
fn metrics_of(alloc: Global, rows: &[Row], count: usize) -> Result<Vec<Vec<i64>>, AllocError>
    ensures { IfOk result (λ metrics. map (λ m. m.items) metrics.items ≡ map (λ m. metric_of m rows.now) (range_with_len 0 count)) }
{
    let mut metrics = no_values(alloc, count, rows.len())?;
    for row in rows {
        add_values(&mut metrics, row)?;
    }
    Ok(metrics)
}

// So many metrics without values, each with room for those of so many rows.
fn no_values(alloc: Global, count: usize, rows: usize) -> Result<Vec<Vec<i64>>, AllocError>
    ensures { IfOk result (λ metrics. map (λ m. m.items) metrics.items ≡ map (λ m. metric_of m []) (range_with_len 0 count)) }
{
    let mut metrics = Vec::with_capacity(alloc, count)?;
    for _ in 0..count {
        metrics.push(Vec::with_capacity(alloc, rows)?)?;
    }
    Ok(metrics)
}

// Adds the values of a row to those of the metrics.
fn add_values(metrics: &mut Vec<Vec<i64>>, row: &Row) -> Result<(), AllocError>
    ensures { OnOk result (AddsRow (map (λ m. m.items) metrics.old.items) (map (λ m. m.items) metrics.new.items) row.now.metrics (length metrics.old.items)) }
{
    for m in 0..metrics.len() {
        let values = &mut metrics[m];
        values.push(metric_at(row, m))?;
    }
    Ok(())
}

// So many dimensions of rows.
fn dimensions_of<'a>(
    alloc: Global,
    rows: &'a [Row],
    count: usize,
    empty: &'a Text,
) -> Result<Vec<Dimension<'a>>, AllocError>
    requires empty { empty.now ≡ [] }
    requires few { length rows.now ≤ 134217728 }
    ensures { IfOk result (λ dims. map column_seen dims.items ≡ map (λ d. column_of (values_of d rows.now)) (range_with_len 0 count)) }
{
    let mut dims = Vec::with_capacity(alloc, count)?;
    for d in 0..count {
        dims.push(dimension_of_rows(alloc, rows, d, empty)?)?;
    }
    Ok(dims)
}

// The dimension of rows at a place.
fn dimension_of_rows<'a>(
    alloc: Global,
    rows: &'a [Row],
    d: usize,
    empty: &'a Text,
) -> Result<Dimension<'a>, AllocError>
    requires empty { empty.now ≡ [] }
    requires few { length rows.now ≤ 134217728 }
    ensures { IfOk result (λ dimension. column_seen dimension ≡ column_of (values_of d rows.now)) }
{
    let values = first_values(alloc, rows, d, empty)?;
    let ranked = ranked(alloc, values.texts.as_slice())?;
    let ranks = ranks(alloc, ranked.as_slice())?;
    let numbers = ranks_at(alloc, values.places.as_slice(), ranks.as_slice())?;
    let dictionary = texts_of(alloc, ranked.as_slice())?;
    Ok(Dimension {
        dictionary,
        numbers,
    })
}
