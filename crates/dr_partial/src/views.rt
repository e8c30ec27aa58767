ghost use Rattle.std.specs.Prelude.{◌≡◌, ◌<◌, ◌≤◌, ◌∷◌, [], ℕ, length, OnOk};
ghost use Rattle.dr_ask.specs.Once.{asked_once};
ghost use Rattle.dr_answers.specs.Groups.{bucket as bucket_of};
ghost use Rattle.dr_image.specs.Table.{rows_of, row_at};
ghost use Rattle.dr_columns.specs.Rows.{key_at, rows_between};
ghost use Rattle.dr_partial.specs.Grouped.{IsSound, AddsAll};
ghost use Rattle.dr_partial.specs.Known.{AreKnown};
ghost use Rattle.dr_partial.specs.Partial.{kinds_in};

use crate::known::Known;
use crate::placing::add_selected_at;
use crate::selecting::{bucket_start, dimensions};
use crate::source::Source;
use crate::whole_runs::add_whole_runs;
use dr_ask::Query;
use dr_base::Text;
use dr_columns::{is_apart, run_end, time_at};
use dr_image::SegmentView;
use dr_rollup::Groups;
use std::alloc::AllocError;

/// Adds the rows of an image.
pub fn add_view(
    groups: &mut Groups,
    query: &Query,
    view: &SegmentView<'_>,
) -> Result<(), AllocError>
    requires { IsSound (kinds_in (asked_once query.now).aggregations) groups.old }
    ensures { OnOk result (AddsAll (asked_once query.now) groups.old (rows_of view.now) groups.new) }
{
    if is_apart(view, &query.intervals) {
        return Ok(());
    }
    let source = Source::of(groups.allocator(), query, view)?;
    if source.selection.is_every() && dimensions(query).is_empty() {
        return add_whole_runs(groups, &source);
    }
    add_runs(groups, &source)
}

// Adds the rows of an image, those of one bucket after those of another.
fn add_runs(groups: &mut Groups, source: &Source<'_>) -> Result<(), AllocError>
    requires { IsSound (kinds_in (asked_once source.now.query.now).aggregations) groups.old }
    ensures { OnOk result (AddsAll (asked_once source.now.query.now) groups.old (rows_of source.now.view.now) groups.new) }
{
    let alloc = groups.allocator();
    let mut known = Vec::new(alloc);
    let mut group = Vec::new(alloc);
    let count = source.view.row_count();
    let mut from = 0;
    while from < count {
        let to = run_end(source.query, source.view, from);
        add_run(groups, source, &mut known, &mut group, from, to)?;
        from = to;
    }
    Ok(())
}

// Adds the rows of one bucket.
fn add_run(
    groups: &mut Groups,
    source: &Source<'_>,
    known: &mut Vec<Known>,
    group: &mut Vec<Text>,
    from: usize,
    to: usize,
) -> Result<(), AllocError>
    requires some { from < to }
    requires within { to ≤ length source.now.view.now.times }
    requires same { (i : ℕ) → from ≤ i → i < to → bucket_of (asked_once source.now.query.now) (key_at source.now.view.now i).time ≡ bucket_of (asked_once source.now.query.now) (key_at source.now.view.now from).time }
    requires sound { IsSound (kinds_in (asked_once source.now.query.now).aggregations) groups.old }
    requires known { AreKnown (asked_once source.now.query.now) source.now.view.now groups.old known.old.items }
    ensures adds { OnOk result (AddsAll (asked_once source.now.query.now) groups.old (rows_between source.now.view.now from to) groups.new) }
    ensures known { OnOk result (AreKnown (asked_once source.now.query.now) source.now.view.now groups.new known.new.items) }
{
    let bucket = bucket_start(source.query, time_at(source.view, from));
    for i in from..to {
        add_at(groups, source, known, group, bucket, i)?;
    }
    Ok(())
}

// Adds a row, where it is selected.
fn add_at(
    groups: &mut Groups,
    source: &Source<'_>,
    known: &mut Vec<Known>,
    group: &mut Vec<Text>,
    bucket: i64,
    i: usize,
) -> Result<(), AllocError>
    requires within { i < length source.now.view.now.times }
    requires bucket { bucket ≡ bucket_of (asked_once source.now.query.now) (key_at source.now.view.now i).time }
    requires sound { IsSound (kinds_in (asked_once source.now.query.now).aggregations) groups.old }
    requires known { AreKnown (asked_once source.now.query.now) source.now.view.now groups.old known.old.items }
    ensures adds { OnOk result (AddsAll (asked_once source.now.query.now) groups.old (row_at source.now.view.now i ∷ []) groups.new) }
    ensures known { OnOk result (AreKnown (asked_once source.now.query.now) source.now.view.now groups.new known.new.items) }
{
    if !source.selection.holds(i) {
        return Ok(());
    }
    add_selected_at(groups, source, known, group, bucket, i)
}
