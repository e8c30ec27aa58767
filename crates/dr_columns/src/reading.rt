ghost use Rattle.std.specs.Prelude.{◌≡◌, ◌-◌, ◌≤◌, ◌∷◌, [], ℕ, map, IfOk};
ghost use Rattle.std.specs.List.{range_with_len};
ghost use Rattle.dr_agg.specs.Combination.{fold_of};
ghost use Rattle.dr_answers.specs.Fold.{reading_in, value_at as value_at_of};
ghost use Rattle.dr_image.specs.Table.{row_at};
ghost use Rattle.dr_columns.specs.Read.{read_at, value_in};

use crate::cells::value_at;
use crate::folding::fold_column;
use crate::values::Values;
use dr_agg::Kind;
use dr_ask::{Aggregation, Column};
use dr_image::SegmentView;
use std::alloc::{AllocError, Global};

/// What an aggregation reads of the rows of an image, and how it combines.
#[derive(Clone, Copy)]
pub struct Reading<'a> {
    pub kind: Kind,
    pub values: Values<'a>,
}

impl Reading<'_> {
    /// What it reads of a row, by the row's number from 0. It takes constant time.
    pub fn at(&self, i: usize) -> i64
        ensures { result ≡ read_at self.now i }
    {
        match &self.values {
            Values::Same(value) => *value,
            Values::Column(cells) => value_at(cells, i),
        }
    }

    /// What it reads of a row alone, combined with nothing else. It takes constant time.
    pub fn alone(&self, i: usize) -> i64
        ensures { result ≡ fold_of self.now.kind (read_at self.now i ∷ []) }
    {
        self.at(i)
    }

    /// What it reads of the rows from a number on, up to another, combined one by one. It takes time by these rows.
    pub fn fold(&self, from: usize, to: usize) -> i64
        requires { from ≤ to }
        ensures { result ≡ fold_of self.now.kind (map (read_at self.now) (range_with_len from (to - from))) }
    {
        if let Values::Column(cells) = &self.values {
            if let Some(run) = cells.get(from..to) {
                return fold_column(self.kind, run);
            }
        }
        self.fold_each(from, to)
    }

    fn fold_each(&self, from: usize, to: usize) -> i64
        requires { from ≤ to }
        ensures { result ≡ fold_of self.now.kind (map (read_at self.now) (range_with_len from (to - from))) }
    {
        let mut folded = self.kind.unit();
        for i in from..to {
            folded = self.kind.combine(folded, self.at(i));
        }
        folded
    }
}

/// What each aggregation reads of the rows of an image: 1 for a count, and the value of its column for every other, which is 0 where
/// there is no such column. The only error is that memory ran out. It takes time and memory by the aggregations.
pub fn readings<'a>(
    alloc: Global,
    view: &SegmentView<'a>,
    aggregations: &[Aggregation],
) -> Result<Vec<Reading<'a>>, AllocError>
    ensures kinds { IfOk result (λ readings. map (λ r. r.kind) readings.items ≡ map (λ a. a.kind) aggregations.now) }
    ensures each { IfOk result (λ readings. (i : ℕ) → map (λ r. read_at r i) readings.items ≡ map (λ a. reading_in a.kind a.column (row_at view.now i)) aggregations.now) }
{
    let mut readings = Vec::with_capacity(alloc, aggregations.len())?;
    for aggregation in aggregations {
        readings.push(reading_of(view, aggregation))?;
    }
    Ok(readings)
}

fn reading_of<'a>(view: &SegmentView<'a>, aggregation: &Aggregation) -> Reading<'a>
    ensures kind { result.kind ≡ aggregation.now.kind }
    ensures each { (i : ℕ) → read_at result i ≡ reading_in aggregation.now.kind aggregation.now.column (row_at view.now i) }
{
    Reading {
        kind: aggregation.kind,
        values: values_read(view, aggregation),
    }
}

fn values_read<'a>(view: &SegmentView<'a>, aggregation: &Aggregation) -> Values<'a>
    ensures { (i : ℕ) → value_in result i ≡ reading_in aggregation.now.kind aggregation.now.column (row_at view.now i) }
{
    match aggregation.kind {
        Kind::Count => Values::Same(1),
        _ => values_of(view, &aggregation.column),
    }
}

fn values_of<'a>(view: &SegmentView<'a>, column: &Option<Column>) -> Values<'a>
    ensures { (i : ℕ) → value_in result i ≡ value_at_of column.now (row_at view.now i) }
{
    let Some(column) = column else {
        return Values::Same(0);
    };
    if column.place < view.metric_count() {
        Values::Column(view.metric_bytes(column.place))
    } else {
        Values::Same(0)
    }
}
