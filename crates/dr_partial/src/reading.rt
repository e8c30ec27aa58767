ghost use Rattle.std.specs.Prelude.{◌≡◌, ◌∷◌, [], IfOk, length};
ghost use Rattle.dr_agg.specs.Combination.{combine_columns, column};
ghost use Rattle.dr_answers.specs.Fold.{folded, reading_in, value_at as value_at_of};
ghost use Rattle.dr_partial.specs.Grouped.{bare, folds_alone};
ghost use Rattle.dr_partial.specs.Partial.{kinds_in};

use dr_agg::Kind;
use dr_ask::{Aggregation, Column};
use dr_base::Numbers;
use std::alloc::{AllocError, Global};

/// What each aggregation folds to over a row alone, by the metrics of the row. The only error is that memory ran out.
pub fn readings(
    alloc: Global,
    aggregations: &[Aggregation],
    metrics: &[i64],
) -> Result<Numbers, AllocError>
    ensures { IfOk result (λ values. values ≡ folds_alone aggregations.now metrics.now) }
{
    let mut values = Vec::with_capacity(alloc, aggregations.len())?;
    for aggregation in aggregations {
        values.push(reading(aggregation, metrics))?;
    }
    Ok(Numbers::from_vec(values))
}

/// Combines what each aggregation folds to over a row alone into the values of a group.
pub fn combine_reading(aggregations: &[Aggregation], values: &mut Numbers, metrics: &[i64])
    requires { length values.old ≡ length (kinds_in aggregations.now) }
    ensures { values.new ≡ combine_columns (kinds_in aggregations.now) values.old (folds_alone aggregations.now metrics.now) }
{
    for (place, aggregation) in aggregations.iter().enumerate() {
        let added = reading(aggregation, metrics);
        let combined = aggregation.kind.combine(values.as_slice()[place], added);
        values.set(place, combined);
    }
}

// What an aggregation folds to over a row alone.
fn reading(aggregation: &Aggregation, metrics: &[i64]) -> i64
    ensures { result ≡ folded aggregation.now (bare metrics.now ∷ []) }
{
    value_read(aggregation, metrics)
}

/// What an aggregation reads of a row: 1 for a count, and the value of its column for every other.
#[inline]
pub fn value_read(aggregation: &Aggregation, metrics: &[i64]) -> i64
    ensures { result ≡ reading_in aggregation.now.kind aggregation.now.column (bare metrics.now) }
{
    match aggregation.kind {
        Kind::Count => 1,
        _ => value_at(&aggregation.column, metrics),
    }
}

// The value of a column; one that isn't there reads 0.
fn value_at(column: &Option<Column>, metrics: &[i64]) -> i64
    ensures { result ≡ value_at_of column.now (bare metrics.now) }
{
    match column {
        Some(column) => value_of(column.place, metrics),
        None => 0,
    }
}

fn value_of(place: usize, metrics: &[i64]) -> i64
    ensures { result ≡ column place metrics.now }
{
    match metrics.get(place) {
        Some(value) => *value,
        None => 0,
    }
}
