ghost use Rattle.std.specs.Prelude.{◌≡◌, ◌<◌, ◌≤◌, [], true, None, length, IfOk, OnOk, slice_range};
ghost use Rattle.std.specs.List.{AllByRecursion};
ghost use Rattle.dr_ask.specs.Asked.{dimensions_by};
ghost use Rattle.dr_ask.specs.Once.{asked_once};
ghost use Rattle.dr_answers.specs.Fold.{folded, folds};
ghost use Rattle.dr_partial.specs.Grouped.{IsSound, AddsAll};
ghost use Rattle.dr_partial.specs.Partial.{kinds_in};
ghost use Rattle.dr_partial.specs.Runs.{IsWithin, LiesIn};

use crate::folds::add_folds;
use crate::reading::value_read;
use crate::rows::add_held;
use crate::selecting::dimensions;
use crate::window::Window;
use dr_ask::{Aggregation, Query};
use dr_base::{Numbers, Text};
use dr_rollup::{Arrived, Groups, KeyOf};
use std::alloc::{AllocError, Global};

// How many rows beside each other are folded by themselves before they are added to their group.
const WORTH_A_FOLD: usize = 8;

/// Behind which place the rows from one on whose times lie in a window end.
pub fn run_end(rows: &Arrived<'_>, window: &Window, from: usize) -> usize
    requires { from ≤ length rows.now }
    ensures more { from ≤ result }
    ensures within { result ≤ length rows.now }
    ensures inside { AllByRecursion (IsWithin window.now) (slice_range rows.now from result) }
{
    for i in from..rows.len() {
        let (time, _, _) = rows.row(i);
        if !window.holds(time) {
            return i;
        }
    }
    rows.len()
}

/// Adds the rows from a place on, up to another, which an interval of the query holds and which lie in one bucket. `group` is memory
/// to use again.
pub fn add_run(
    groups: &mut Groups,
    group: &mut Vec<Text>,
    query: &Query,
    rows: &Arrived<'_>,
    bucket: i64,
    from: usize,
    to: usize,
) -> Result<(), AllocError>
    requires some { from < to }
    requires within { to ≤ length rows.now }
    requires same { AllByRecursion (λ r. LiesIn (asked_once query.now) bucket r.key.time) (slice_range rows.now from to) }
    requires sound { IsSound (kinds_in (asked_once query.now).aggregations) groups.old }
    ensures { OnOk result (AddsAll (asked_once query.now) groups.old (slice_range rows.now from to) groups.new) }
{
    if to - from >= WORTH_A_FOLD && is_plain(query) {
        return add_whole_run(groups, query, rows, bucket, from, to);
    }
    add_each(groups, group, query, rows, bucket, from, to)
}

// Whether each row that an interval holds is selected, and has no dimension values in its group.
fn is_plain(query: &Query) -> bool
    ensures filter { result ≡ true → (asked_once query.now).filter ≡ None }
    ensures dimensions { result ≡ true → dimensions_by (asked_once query.now).shape ≡ [] }
{
    query.filter.is_none() && dimensions(query).is_empty()
}

// Adds rows of one bucket, each where the filter passes it.
fn add_each(
    groups: &mut Groups,
    group: &mut Vec<Text>,
    query: &Query,
    rows: &Arrived<'_>,
    bucket: i64,
    from: usize,
    to: usize,
) -> Result<(), AllocError>
    requires some { from < to }
    requires within { to ≤ length rows.now }
    requires same { AllByRecursion (λ r. LiesIn (asked_once query.now) bucket r.key.time) (slice_range rows.now from to) }
    requires sound { IsSound (kinds_in (asked_once query.now).aggregations) groups.old }
    ensures { OnOk result (AddsAll (asked_once query.now) groups.old (slice_range rows.now from to) groups.new) }
{
    let mut last = 0;
    for i in from..to {
        let (time, dims, metrics) = rows.row(i);
        let key = KeyOf { time, dims };
        last = add_held(groups, group, last, query, bucket, &key, metrics)?;
    }
    Ok(())
}

// Adds rows of one bucket, all of which are selected, to the group without dimension values: each aggregation is folded over them.
fn add_whole_run(
    groups: &mut Groups,
    query: &Query,
    rows: &Arrived<'_>,
    bucket: i64,
    from: usize,
    to: usize,
) -> Result<(), AllocError>
    requires some { from < to }
    requires within { to ≤ length rows.now }
    requires same { AllByRecursion (λ r. LiesIn (asked_once query.now) bucket r.key.time) (slice_range rows.now from to) }
    requires every { (asked_once query.now).filter ≡ None }
    requires plain { dimensions_by (asked_once query.now).shape ≡ [] }
    requires sound { IsSound (kinds_in (asked_once query.now).aggregations) groups.old }
    ensures { OnOk result (AddsAll (asked_once query.now) groups.old (slice_range rows.now from to) groups.new) }
{
    let aggregations = query.aggregations.distinct();
    let folds = folds_between(groups.allocator(), aggregations, rows, from, to)?;
    let group = KeyOf {
        time: bucket,
        dims: &[],
    };
    add_folds(groups, aggregations, &group, folds)
}

// What each aggregation folds to over the rows from a place on, up to another.
fn folds_between(
    alloc: Global,
    aggregations: &[Aggregation],
    rows: &Arrived<'_>,
    from: usize,
    to: usize,
) -> Result<Numbers, AllocError>
    requires some { from < to }
    requires within { to ≤ length rows.now }
    ensures { IfOk result (λ values. values ≡ folds aggregations.now (slice_range rows.now from to)) }
{
    let mut values = Vec::with_capacity(alloc, aggregations.len())?;
    for aggregation in aggregations {
        values.push(fold_between(aggregation, rows, from, to))?;
    }
    Ok(Numbers::from_vec(values))
}

// What an aggregation folds to over the rows from a place on, up to another.
fn fold_between(aggregation: &Aggregation, rows: &Arrived<'_>, from: usize, to: usize) -> i64
    requires some { from < to }
    requires within { to ≤ length rows.now }
    ensures { result ≡ folded aggregation.now (slice_range rows.now from to) }
{
    let mut folded = aggregation.kind.unit();
    for i in from..to {
        let (_, _, metrics) = rows.row(i);
        folded = aggregation
            .kind
            .combine(folded, value_read(aggregation, metrics));
    }
    folded
}
