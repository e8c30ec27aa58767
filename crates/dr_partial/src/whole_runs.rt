ghost use Rattle.std.specs.Prelude.{◌≡◌, ◌<◌, ◌≤◌, [], ℕ, true, length, IfOk, OnOk};
ghost use Rattle.dr_ask.specs.Asked.{dimensions_by};
ghost use Rattle.dr_ask.specs.Once.{asked_once};
ghost use Rattle.dr_answers.specs.Fold.{folds};
ghost use Rattle.dr_answers.specs.Groups.{bucket};
ghost use Rattle.dr_image.specs.Table.{rows_of};
ghost use Rattle.dr_columns.specs.Rows.{key_at, rows_between};
ghost use Rattle.dr_columns.specs.Told.{tells};
ghost use Rattle.dr_partial.specs.Grouped.{IsSound, AddsAll};
ghost use Rattle.dr_partial.specs.Partial.{kinds_in};

use crate::folds::add_folds;
use crate::selecting::bucket_start;
use crate::source::Source;
use dr_base::Numbers;
use dr_columns::{run_end, time_at};
use dr_rollup::{Groups, KeyOf};
use std::alloc::{AllocError, Global};

/// Adds the rows of an image, all of which are selected, to groups without dimension values: each column is folded over the
/// rows of one bucket after those of another.
pub fn add_whole_runs(groups: &mut Groups, source: &Source<'_>) -> Result<(), AllocError>
    requires every { (i : ℕ) → tells source.now.selection i ≡ true }
    requires plain { dimensions_by (asked_once source.now.query.now).shape ≡ [] }
    requires sound { IsSound (kinds_in (asked_once source.now.query.now).aggregations) groups.old }
    ensures { OnOk result (AddsAll (asked_once source.now.query.now) groups.old (rows_of source.now.view.now) groups.new) }
{
    let count = source.view.row_count();
    let mut from = 0;
    while from < count {
        let to = run_end(source.query, source.view, from);
        add_whole_run(groups, source, from, to)?;
        from = to;
    }
    Ok(())
}

// Adds the rows of one bucket.
fn add_whole_run(
    groups: &mut Groups,
    source: &Source<'_>,
    from: usize,
    to: usize,
) -> Result<(), AllocError>
    requires some { from < to }
    requires within { to ≤ length source.now.view.now.times }
    requires same { (i : ℕ) → from ≤ i → i < to → bucket (asked_once source.now.query.now) (key_at source.now.view.now i).time ≡ bucket (asked_once source.now.query.now) (key_at source.now.view.now from).time }
    requires every { (i : ℕ) → tells source.now.selection i ≡ true }
    requires plain { dimensions_by (asked_once source.now.query.now).shape ≡ [] }
    requires sound { IsSound (kinds_in (asked_once source.now.query.now).aggregations) groups.old }
    ensures { OnOk result (AddsAll (asked_once source.now.query.now) groups.old (rows_between source.now.view.now from to) groups.new) }
{
    let bucket = bucket_start(source.query, time_at(source.view, from));
    let folds = folds_between(groups.allocator(), source, from, to)?;
    let group = KeyOf {
        time: bucket,
        dims: &[],
    };
    add_folds(groups, source.query.aggregations.distinct(), &group, folds)
}

// What each aggregation folds to over the rows from a number on, up to another.
fn folds_between(
    alloc: Global,
    source: &Source<'_>,
    from: usize,
    to: usize,
) -> Result<Numbers, AllocError>
    requires { from ≤ to }
    ensures { IfOk result (λ values. values ≡ folds (asked_once source.now.query.now).aggregations (rows_between source.now.view.now from to)) }
{
    let mut values = Vec::with_capacity(alloc, source.readings.len())?;
    for reading in source.readings.as_slice() {
        values.push(reading.fold(from, to))?;
    }
    Ok(Numbers::from_vec(values))
}
