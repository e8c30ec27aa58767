ghost use Rattle.std.specs.Prelude.{◌∷◌, [], OnOk};
ghost use Rattle.std.specs.List.{AllByRecursion, flat_map};
ghost use Rattle.dr_time.specs.Instant.{IsInstant};
ghost use Rattle.dr_ask.specs.Asked.{dimensions_by};
ghost use Rattle.dr_ask.specs.Once.{asked_once};
ghost use Rattle.dr_answers.specs.Groups.{group_of, grouped_values};
ghost use Rattle.dr_partial.specs.Grouped.{folds_alone, IsSound, Adds, AddsAll};
ghost use Rattle.dr_partial.specs.Partial.{kinds_in};
ghost use Rattle.dr_partial.specs.Runs.{LiesIn};

use crate::at_once::add_rows_at_once;
use crate::grouping::{add, combine, is_group_at};
use crate::selecting::{bucket_start, dimensions, is_selected, passes, read_group};
use dr_ask::Query;
use dr_base::{Key, Row, Text};
use dr_rollup::{Groups, KeyOf};
use dr_select::filter_of_many;
use std::alloc::AllocError;

/// Adds the rows of some pieces, one piece after another. `group` is memory to use again.
pub fn add_pieces(
    groups: &mut Groups,
    group: &mut Vec<Text>,
    query: &Query,
    pieces: &[&[Row]],
) -> Result<(), AllocError>
    requires instants { AllByRecursion (λ r. IsInstant r.key.time) (flat_map (λ p. p.now) pieces.now) }
    requires sound { IsSound (kinds_in (asked_once query.now).aggregations) groups.old }
    ensures { OnOk result (AddsAll (asked_once query.now) groups.old (flat_map (λ p. p.now) pieces.now) groups.new) }
{
    for piece in pieces {
        add_rows(groups, group, query, piece)?;
    }
    Ok(())
}

/// Adds the rows of a piece. `group` is memory to use again.
pub fn add_rows(
    groups: &mut Groups,
    group: &mut Vec<Text>,
    query: &Query,
    rows: &[Row],
) -> Result<(), AllocError>
    requires instants { AllByRecursion (λ r. IsInstant r.key.time) rows.now }
    requires sound { IsSound (kinds_in (asked_once query.now).aggregations) groups.old }
    ensures { OnOk result (AddsAll (asked_once query.now) groups.old rows.now groups.new) }
{
    match filter_of_many(&query.filter) {
        Some(filter) => add_rows_at_once(groups, group, query, filter, rows),
        None => add_each(groups, group, query, rows),
    }
}

// Adds rows one by one.
fn add_each(
    groups: &mut Groups,
    group: &mut Vec<Text>,
    query: &Query,
    rows: &[Row],
) -> Result<(), AllocError>
    requires instants { AllByRecursion (λ r. IsInstant r.key.time) rows.now }
    requires sound { IsSound (kinds_in (asked_once query.now).aggregations) groups.old }
    ensures { OnOk result (AddsAll (asked_once query.now) groups.old rows.now groups.new) }
{
    for row in rows {
        add_row(groups, group, query, row)?;
    }
    Ok(())
}

/// Adds a row, where the query selects it.
fn add_row(
    groups: &mut Groups,
    group: &mut Vec<Text>,
    query: &Query,
    row: &Row,
) -> Result<(), AllocError>
    requires instant { IsInstant row.now.key.time }
    requires sound { IsSound (kinds_in (asked_once query.now).aggregations) groups.old }
    ensures { OnOk result (AddsAll (asked_once query.now) groups.old (row.now ∷ []) groups.new) }
{
    add_parts(groups, group, query, &row.key, row.metrics.as_slice())
}

/// Adds the row of a key and metrics, where the query selects it.
pub fn add_parts(
    groups: &mut Groups,
    group: &mut Vec<Text>,
    query: &Query,
    key: &Key,
    metrics: &[i64],
) -> Result<(), AllocError>
    requires instant { IsInstant key.now.time }
    requires sound { IsSound (kinds_in (asked_once query.now).aggregations) groups.old }
    ensures { OnOk result (AddsAll (asked_once query.now) groups.old (record { key = key.now; metrics = metrics.now } ∷ []) groups.new) }
{
    let time = key.time;
    let dims = key.dims.as_slice();
    if !is_selected(query, time, dims) {
        return Ok(());
    }
    add_selected(groups, group, query, time, dims, metrics)
}

/// Adds a row of this time, these dimension values and these metrics.
pub fn add_selected(
    groups: &mut Groups,
    group: &mut Vec<Text>,
    query: &Query,
    time: i64,
    dims: &[Text],
    metrics: &[i64],
) -> Result<(), AllocError>
    requires instant { IsInstant time }
    requires sound { IsSound (kinds_in (asked_once query.now).aggregations) groups.old }
    ensures { OnOk result (Adds (kinds_in (asked_once query.now).aggregations) groups.old (record { key = group_of (asked_once query.now) (dimensions_by (asked_once query.now).shape) (record { time = time; dims = dims.now }); metrics = folds_alone (asked_once query.now).aggregations metrics.now }) groups.new) }
{
    let alloc = *group.allocator();
    read_group(alloc, dimensions(query), dims, group)?;
    let key = KeyOf {
        time: bucket_start(query, time),
        dims: group.as_slice(),
    };
    add(groups, query.aggregations.distinct(), &key, metrics)?;
    Ok(())
}

/// Adds the row of a key and metrics, which an interval of the query holds and which lies in the bucket that starts there, where the
/// filter passes it. `last` is where the group of a row before it stands, which is tried before the groups are searched. Answers the
/// place to try next.
pub fn add_held(
    groups: &mut Groups,
    group: &mut Vec<Text>,
    last: usize,
    query: &Query,
    bucket: i64,
    key: &KeyOf<'_>,
    metrics: &[i64],
) -> Result<usize, AllocError>
    requires held { LiesIn (asked_once query.now) bucket key.now.time }
    requires sound { IsSound (kinds_in (asked_once query.now).aggregations) groups.old }
    ensures { OnOk result (AddsAll (asked_once query.now) groups.old (record { key = record { time = key.now.time; dims = key.now.dims.now }; metrics = metrics.now } ∷ []) groups.new) }
{
    if !passes(&query.filter, key.time, key.dims) {
        return Ok(last);
    }
    add_passed(groups, group, last, query, bucket, key.dims, metrics)
}

// Adds a row of these dimension values and these metrics to its group in a bucket.
fn add_passed(
    groups: &mut Groups,
    group: &mut Vec<Text>,
    last: usize,
    query: &Query,
    bucket: i64,
    dims: &[Text],
    metrics: &[i64],
) -> Result<usize, AllocError>
    requires sound { IsSound (kinds_in (asked_once query.now).aggregations) groups.old }
    ensures { OnOk result (Adds (kinds_in (asked_once query.now).aggregations) groups.old (record { key = record { time = bucket; dims = grouped_values (dimensions_by (asked_once query.now).shape) dims.now }; metrics = folds_alone (asked_once query.now).aggregations metrics.now }) groups.new) }
{
    let aggregations = query.aggregations.distinct();
    if is_group_at(groups, last, bucket, dimensions(query), dims) {
        combine(groups, last, aggregations, metrics);
        return Ok(last);
    }
    let alloc = *group.allocator();
    read_group(alloc, dimensions(query), dims, group)?;
    let key = KeyOf {
        time: bucket,
        dims: group.as_slice(),
    };
    add(groups, aggregations, &key, metrics)
}
