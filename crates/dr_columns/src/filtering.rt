ghost use Rattle.std.specs.Prelude.{◌≡◌, ◌<◌, ◌&&◌, ℕ, false, not, length, map, get_or, OnOk, IfOk};
ghost use Rattle.dr_time.specs.Union.{union_holds};
ghost use Rattle.dr_filter.specs.Condition.{condition_in, conditions_in, every_matches, some_matches};
ghost use Rattle.dr_predicate.specs.Match.{holds_of, passes};
ghost use Rattle.dr_image.specs.Checked.{column_at};
ghost use Rattle.dr_columns.specs.Rows.{Narrows, key_at, meets};

use crate::at_once::narrow_at_once;
use crate::cells::{known_place, value_at};
use crate::telling::{all_true, drop_where, keep_true};
use dr_filter::{Filter, FilterTree};
use dr_image::SegmentView;
use dr_predicate::{DimensionTest, ValueTest};
use dr_select::is_asked_at_once;
use dr_time::Union;
use std::alloc::{AllocError, Global};

/// Makes false what is told of the rows of an image that a filter doesn't keep. A test of a dimension is asked once for each value
/// of the dimension's dictionary, and the time of a row once for each run of equal times. The only error is that memory ran out.
/// It takes time by the tests and the nests of [`Filter::asked`], each by the rows, and each test as
/// [`ValueTest::passes`](dr_predicate::ValueTest::passes) by the values; but a filter of many tests takes what
/// [`select_rows`](dr_select::select_rows) takes of as many rows at once as [`lot_end`](dr_select::lot_end) says, in memory of their
/// own meanwhile.
pub fn narrow(
    alloc: Global,
    view: &SegmentView<'_>,
    filter: &Filter,
    told: &mut [bool],
) -> Result<(), AllocError>
    requires { length told.old ≡ length view.now.times }
    ensures { OnOk result (Narrows (meets view.now (condition_in filter.now)) told.old told.new) }
{
    if is_asked_at_once(filter) {
        return narrow_at_once(alloc, view, filter, told);
    }
    narrow_asked(alloc, view, filter.asked(), told)?;
    Ok(())
}

// Makes false what is told of the rows that a filter doesn't keep.
#[cycle(narrowing)]
fn narrow_asked(
    alloc: Global,
    view: &SegmentView<'_>,
    filter: &FilterTree,
    told: &mut [bool],
) -> Result<(), AllocError>
    requires { length told.old ≡ length view.now.times }
    ensures { OnOk result (Narrows (meets view.now (condition_in filter.now)) told.old told.new) }
{
    match filter {
        FilterTree::Dimension(test) => keep_passing(alloc, view, test, told),
        FilterTree::Interval(union) => {
            keep_held(view, union, told);
            Ok(())
        }
        FilterTree::And(filters) => narrow_every(alloc, view, filters.as_slice(), told),
        FilterTree::Or(filters) => {
            let none = meet_none(alloc, view, filters.as_slice())?;
            drop_where(told, none.as_slice());
            Ok(())
        }
        FilterTree::Not(filter) => {
            let mut met = all_true(alloc, view)?;
            narrow_asked(alloc, view, filter, met.as_mut_slice())?;
            drop_where(told, met.as_slice());
            Ok(())
        }
    }
}

// Makes false what is told of the rows that don't meet all of some filters.
#[cycle(narrowing)]
fn narrow_every(
    alloc: Global,
    view: &SegmentView<'_>,
    filters: &[FilterTree],
    told: &mut [bool],
) -> Result<(), AllocError>
    requires { length told.old ≡ length view.now.times }
    ensures { OnOk result (Narrows (λ i. every_matches (key_at view.now i).time (key_at view.now i).dims (conditions_in filters.now)) told.old told.new) }
{
    for filter in filters {
        narrow_asked(alloc, view, filter, told)?;
    }
    Ok(())
}

// Of each row, whether it meets none of some filters.
#[cycle(narrowing)]
fn meet_none(
    alloc: Global,
    view: &SegmentView<'_>,
    filters: &[FilterTree],
) -> Result<Vec<bool>, AllocError>
    ensures count { IfOk result (λ none. length none.items ≡ length view.now.times) }
    ensures each { IfOk result (λ none. (i : ℕ) → i < length view.now.times → get_or none.items i false ≡ not (some_matches (key_at view.now i).time (key_at view.now i).dims (conditions_in filters.now))) }
{
    let mut none = all_true(alloc, view)?;
    for filter in filters {
        let mut met = all_true(alloc, view)?;
        narrow_asked(alloc, view, filter, met.as_mut_slice())?;
        drop_where(none.as_mut_slice(), met.as_slice());
    }
    Ok(none)
}

// Makes false what is told of the rows whose value doesn't pass a test.
fn keep_passing(
    alloc: Global,
    view: &SegmentView<'_>,
    test: &DimensionTest,
    told: &mut [bool],
) -> Result<(), AllocError>
    ensures { OnOk result (Narrows (λ i. holds_of test.now (key_at view.now i).dims) told.old told.new) }
{
    let empty = test.test.passes("");
    let Some(d) = known_place(view, test.place) else {
        keep_true(told, &[], &[], empty);
        return Ok(());
    };
    let truths = truths(alloc, view, d, &test.test)?;
    keep_true(told, view.numbers(d), truths.as_slice(), empty);
    Ok(())
}

// Of each value of a dimension, whether it passes a test.
fn truths(
    alloc: Global,
    view: &SegmentView<'_>,
    d: usize,
    test: &ValueTest,
) -> Result<Vec<bool>, AllocError>
    requires { d < length view.now.dims }
    ensures { IfOk result (λ truths. truths.items ≡ map (passes test.now) (column_at view.now d).dictionary) }
{
    let count = view.value_count(d);
    let mut truths = Vec::with_capacity(alloc, count)?;
    for v in 0..count {
        truths.push(test.passes(view.value(d, v)))?;
    }
    Ok(truths)
}

/// Makes false what is told of the rows of an image whose time lies in none of some intervals. It takes time by the rows, and for
/// each run of equal times as [`Union::contains`].
pub fn keep_held(view: &SegmentView<'_>, union: &Union, told: &mut [bool])
    ensures { Narrows (λ i. union_holds union.now (key_at view.now i).time) told.old told.new }
{
    let times = view.times();
    let mut time = view.min_time();
    let mut held = union.contains(time);
    for i in 0..told.len() {
        let next = value_at(times, i);
        held = is_held(union, time, held, next);
        time = next;
        told[i] = both(told[i], held);
    }
}

fn both(a: bool, b: bool) -> bool
    ensures { result ≡ (a && b) }
{
    a && b
}

// Whether a time is held, where that is known of the time before.
fn is_held(union: &Union, before: i64, held: bool, time: i64) -> bool
    requires { held ≡ union_holds union.now before }
    ensures { result ≡ union_holds union.now time }
{
    if time == before {
        return held;
    }
    union.contains(time)
}
