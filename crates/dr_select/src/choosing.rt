ghost use Rattle.std.specs.Prelude.{◌≡◌, ◌≤◌, ◌&&◌, not, true, length, map, replicate, IfOk};
ghost use Rattle.dr_predicate.specs.Match.{holds_of, passes};
ghost use Rattle.dr_predicate.specs.declared.value_test.ValueTest.TheVariants.{Like};
ghost use Rattle.dr_time.specs.Union.{union_holds};
ghost use Rattle.dr_filter.specs.Condition.{condition_in, conditions_in, every_matches, some_matches};
ghost use Rattle.dr_rowindex.specs.Orders.{Adds, Tell};
ghost use Rattle.dr_rowindex.specs.Truths.{Joined};
ghost use Rattle.dr_select.specs.Parts.{AddsPart};
ghost use Rattle.dr_select.specs.Rows.{meets, value_of};

use crate::asked_for::AskedFor;
use crate::bounds::{is_one_part, part_end};
use crate::by_row::{are_few, keep_every};
use crate::lot::Lot;
use crate::passing::insert_passing;
use dr_filter::{Filter, FilterTree};
use dr_places::fits_soonest;
use dr_predicate::{DimensionTest, ValueTest, value_at};
use dr_rollup::KeyOf;
use dr_rowindex::{NumberOrder, RowSet, asks_for_many};
use dr_time::{Interval, Union};
use std::alloc::{AllocError, Global};

// Behind so many tests that are joined it is looked if few rows are left to be asked.
const LOOKED_BEHIND: usize = 64;

/// The rows that a filter keeps, each lent by its key. The only error is that memory ran out.
///
/// The rows are put in the order of their values once for each dimension that [`Filter::asked`] asks for 8 times or more, and of their
/// times, where it asks for these as often, which takes n log n in the rows, and memory by them. Then each text, each range and each
/// interval takes time by the logarithm of the rows and by the rows that it lets through, but for those in the middle of many, 64 at
/// once; where an `in` has more texts than a sixteenth of the rows, or ranges or intervals that are asked together are as many, each
/// value that differs, or each time, is looked up among them. Of the other dimensions each row is asked by itself. Each `and`, `or` and
/// `not` takes time by the rows, 64 at once.
///
/// Behind each 64th test of an `and` it is looked if one row in 1,024 at most is left. Then each of these is asked the other tests by itself,
/// up to the first that it fails. [`Filter::asked`] has no `or`, but the opposite of an `and` in its place.
///
/// Where a dimension is asked by a pattern 8 times or more, the characters of its values are read, and a pattern takes what
/// [`LetterRows::fitting`](dr_letters::LetterRows::fitting) does. For that 16,384 rows are asked at once, where it is one dimension, and
/// fewer, down to 1,024, where they are more; and the characters are read as far as one value in 256 goes on, and as 64 MiB in all these
/// dimensions, and 16 bytes for each byte of the values, hold what is known of them, so the memory for them is bounded. Values that go on
/// further are asked by themselves. Of values of 1,024 bytes or more, or of 64 where the rows are few, it is kept too where each letter
/// stands, which takes up to 20 bytes for each byte of them; so of more than one row values of 4 MiB at most are asked at once.
pub fn select(alloc: Global, filter: &Filter, rows: &[KeyOf<'_>]) -> Result<RowSet, AllocError>
    ensures { IfOk result (λ s. s ≡ map (meets (condition_in filter.now)) rows.now) }
{
    let asked = filter.asked();
    let often = AskedFor::of(alloc, asked)?;
    let set = met_by_parts(alloc, asked, &often, rows)?;
    Ok(set)
}

// The rows that meet a filter, which is asked of no more of them at once than there is memory for.
fn met_by_parts(
    alloc: Global,
    filter: &FilterTree,
    often: &AskedFor,
    rows: &[KeyOf<'_>],
) -> Result<RowSet, AllocError>
    ensures { IfOk result (λ s. Tell (meets (condition_in filter.now)) rows.now s) }
{
    let patterns = often.patterns.often(alloc)?;
    let places = patterns.as_slice();
    if is_one_part(rows, places) {
        return met_by_part(alloc, filter, often, rows);
    }
    let mut set = RowSet::none(alloc, rows.len())?;
    let mut from = 0usize;
    while from < rows.len() {
        let to = part_end(rows, places, from);
        let part = met_by_part(alloc, filter, often, &rows[from..to])?;
        insert_part(&part, from, to, &mut set);
        from = to;
    }
    Ok(set)
}

// The same, where there is memory for all of them.
fn met_by_part(
    alloc: Global,
    filter: &FilterTree,
    often: &AskedFor,
    rows: &[KeyOf<'_>],
) -> Result<RowSet, AllocError>
    ensures { IfOk result (λ s. Tell (meets (condition_in filter.now)) rows.now s) }
{
    let lot = Lot::of(alloc, rows, often)?;
    let set = met(alloc, filter, &lot)?;
    Ok(set)
}

// Adds the rows of a part, which stand from a place on, up to another.
fn insert_part(part: &RowSet, from: usize, to: usize, set: &mut RowSet)
    requires some { from ≤ to }
    requires within { to ≤ length set.old }
    ensures { AddsPart part.now from to set.old set.new }
{
    for row in from..to {
        if part.contains(row - from) {
            set.insert(row);
        }
    }
}

#[cycle(choosing)]
fn met(alloc: Global, filter: &FilterTree, lot: &Lot<'_>) -> Result<RowSet, AllocError>
    ensures { IfOk result (λ s. Tell (meets (condition_in filter.now)) lot.now.rows.now s) }
{
    match filter {
        FilterTree::Dimension(test) => passing(alloc, test, lot),
        FilterTree::Interval(union) => held(alloc, union, lot),
        FilterTree::And(filters) => met_by_every(alloc, filters.as_slice(), lot),
        FilterTree::Or(filters) => met_by_some(alloc, filters.as_slice(), lot),
        FilterTree::Not(filter) => {
            let denied = met(alloc, filter, lot)?;
            let set = others(alloc, lot.rows.len(), &denied)?;
            Ok(set)
        }
    }
}

// The rows that meet all of some filters. Once no row is left, no more are asked, and few that are left are asked by themselves.
#[cycle(choosing)]
fn met_by_every(alloc: Global, filters: &[FilterTree], lot: &Lot<'_>) -> Result<RowSet, AllocError>
    ensures { IfOk result (λ s. Tell (λ row. every_matches row.time row.dims.now (conditions_in filters.now)) lot.now.rows.now s) }
{
    let mut set = RowSet::all(alloc, lot.rows.len())?;
    for k in 0..filters.len() {
        if set.has_none() {
            return Ok(set);
        }
        if is_looked_at(k) && are_few(&set, lot.rows.len()) {
            let kept = keep_every(alloc, &filters[k..], lot.rows, &set)?;
            return Ok(kept);
        }
        set.and(&met(alloc, &filters[k], lot)?);
    }
    Ok(set)
}

// The rows that meet one of some filters. A filter that was joined has no `or`: it has the opposite of an `and` in its place.
#[cycle(choosing)]
fn met_by_some(alloc: Global, filters: &[FilterTree], lot: &Lot<'_>) -> Result<RowSet, AllocError>
    ensures { IfOk result (λ s. Tell (λ row. some_matches row.time row.dims.now (conditions_in filters.now)) lot.now.rows.now s) }
{
    let mut set = RowSet::none(alloc, lot.rows.len())?;
    for filter in filters {
        set.or(&met(alloc, filter, lot)?);
    }
    Ok(set)
}

// All of so many rows but those in a set.
fn others(alloc: Global, count: usize, set: &RowSet) -> Result<RowSet, AllocError>
    requires { length set.now ≡ count }
    ensures { IfOk result (λ s. Joined (λ a b. a && not b) set.now (replicate count true) s) }
{
    let mut all = RowSet::all(alloc, count)?;
    all.and_not(set);
    Ok(all)
}

// Whether it is looked behind so many tests if few rows are left.
fn is_looked_at(tests: usize) -> bool {
    tests > 0 && tests % LOOKED_BEHIND == 0
}

// The rows whose value passes a test.
fn passing(alloc: Global, test: &DimensionTest, lot: &Lot<'_>) -> Result<RowSet, AllocError>
    ensures { IfOk result (λ s. Tell (λ row. holds_of test.now row.dims.now) lot.now.rows.now s) }
{
    let ValueTest::Like(pattern) = &test.test else {
        return passing_in_order(alloc, test, lot);
    };
    let set = fitting(alloc, pattern.as_str(), test.place, lot)?;
    Ok(set)
}

// The rows whose value fits a pattern: it is asked of the characters of all values at once, where these were read.
fn fitting(
    alloc: Global,
    pattern: &str,
    place: Option<usize>,
    lot: &Lot<'_>,
) -> Result<RowSet, AllocError>
    ensures { IfOk result (λ s. Tell (λ row. passes (Like pattern.now) (value_of place row)) lot.now.rows.now s) }
{
    let Some(letters) = lot.letters_at(place) else {
        return fitting_by_rows(alloc, pattern, place, lot.rows);
    };
    let set = letters.fitting(alloc, pattern)?;
    Ok(set)
}

// The same, each row asked by itself.
fn fitting_by_rows(
    alloc: Global,
    pattern: &str,
    place: Option<usize>,
    rows: &[KeyOf<'_>],
) -> Result<RowSet, AllocError>
    ensures { IfOk result (λ s. Tell (λ row. passes (Like pattern.now) (value_of place row)) rows.now s) }
{
    let mut set = RowSet::none(alloc, rows.len())?;
    for i in 0..rows.len() {
        if fits_soonest(alloc, pattern, value_at(rows[i].dims, place))? {
            set.insert(i);
        }
    }
    Ok(set)
}

// The rows whose value passes a test, found by the order of their values, where they stand in that.
fn passing_in_order(
    alloc: Global,
    test: &DimensionTest,
    lot: &Lot<'_>,
) -> Result<RowSet, AllocError>
    ensures { IfOk result (λ s. Tell (λ row. holds_of test.now row.dims.now) lot.now.rows.now s) }
{
    match lot.order_at(test.place) {
        Some(order) => {
            let mut set = RowSet::none(alloc, lot.rows.len())?;
            insert_passing(alloc, order, lot.rows.len(), &test.test, &mut set)?;
            Ok(set)
        }
        None => passing_by_rows(alloc, test, lot.rows),
    }
}

// The same, where the rows stand in no such order.
fn passing_by_rows(
    alloc: Global,
    test: &DimensionTest,
    rows: &[KeyOf<'_>],
) -> Result<RowSet, AllocError>
    ensures { IfOk result (λ s. Tell (λ row. holds_of test.now row.dims.now) rows.now s) }
{
    let mut set = RowSet::none(alloc, rows.len())?;
    for i in 0..rows.len() {
        if test.holds_of(rows[i].dims) {
            set.insert(i);
        }
    }
    Ok(set)
}

// The rows whose time lies in one of some intervals.
fn held(alloc: Global, union: &Union, lot: &Lot<'_>) -> Result<RowSet, AllocError>
    ensures { IfOk result (λ s. Tell (λ row. union_holds union.now row.time) lot.now.rows.now s) }
{
    let intervals = union.intervals();
    match lot.times() {
        Some(times) if !asks_for_many(intervals.len(), lot.rows.len()) => {
            let mut set = RowSet::none(alloc, lot.rows.len())?;
            insert_held(times, intervals, &mut set);
            Ok(set)
        }
        _ => held_by_rows(alloc, union, lot.rows),
    }
}

// Adds the rows whose time lies in one of some intervals.
fn insert_held(times: &NumberOrder, intervals: &[Interval], set: &mut RowSet)
    requires { length set.old ≡ length times.now }
    ensures { Adds (union_holds intervals.now) times.now set.old set.new }
{
    for interval in intervals {
        let from = i128::from(interval.start);
        let to = i128::from(interval.end);
        times.insert_between(Some(from), Some(to), set);
    }
}

// The same rows, each asked by itself.
fn held_by_rows(alloc: Global, union: &Union, rows: &[KeyOf<'_>]) -> Result<RowSet, AllocError>
    ensures { IfOk result (λ s. Tell (λ row. union_holds union.now row.time) rows.now s) }
{
    let mut set = RowSet::none(alloc, rows.len())?;
    for i in 0..rows.len() {
        if union.contains(rows[i].time) {
            set.insert(i);
        }
    }
    Ok(set)
}
