ghost use Rattle.std.specs.Prelude.{◌≡◌, IfOk};
ghost use Rattle.dr_predicate.specs.Match.{holds_of};
ghost use Rattle.dr_filter.specs.Condition.{condition_in, conditions_in, every_matches, some_matches};
ghost use Rattle.dr_select.specs.Parts.{Keeps};
ghost use Rattle.dr_select.specs.Rows.{meets};

use dr_filter::FilterTree;
use dr_places::fits_soonest;
use dr_predicate::{DimensionTest, ValueTest, value_at};
use dr_rollup::KeyOf;
use dr_rowindex::RowSet;
use std::alloc::{AllocError, Global};

// Those of some rows are few that are one in so many at most.
const SHARE: usize = 1024;

// Whether few rows are in a set, so that it takes less time to ask each of them by itself than to ask all at once. It takes time by the
// rows.
pub fn are_few(set: &RowSet, rows: usize) -> bool {
    let most = rows / SHARE;
    let mut count = 0usize;
    for i in 0..rows {
        if set.contains(i) {
            if count == most {
                return false;
            }
            count = count.saturating_add(1);
        }
    }
    true
}

// Those of some rows that meet all of some filters, each asked by itself.
pub fn keep_every(
    alloc: Global,
    filters: &[FilterTree],
    rows: &[KeyOf<'_>],
    some: &RowSet,
) -> Result<RowSet, AllocError>
    ensures { IfOk result (λ s. Keeps (λ row. every_matches row.time row.dims.now (conditions_in filters.now)) rows.now some.now s) }
{
    let mut kept = RowSet::none(alloc, rows.len())?;
    for i in 0..rows.len() {
        if some.contains(i) && meets_every(alloc, filters, &rows[i])? {
            kept.insert(i);
        }
    }
    Ok(kept)
}

// Whether a row meets a filter.
#[cycle(asking)]
fn is_met(alloc: Global, filter: &FilterTree, row: &KeyOf<'_>) -> Result<bool, AllocError>
    ensures { IfOk result (λ b. b ≡ meets (condition_in filter.now) row.now) }
{
    match filter {
        FilterTree::Dimension(test) => is_passed(alloc, test, row),
        FilterTree::Interval(union) => Ok(union.contains(row.time)),
        FilterTree::And(filters) => meets_every(alloc, filters.as_slice(), row),
        FilterTree::Or(filters) => meets_some(alloc, filters.as_slice(), row),
        FilterTree::Not(filter) => {
            let denied = is_met(alloc, filter, row)?;
            Ok(!denied)
        }
    }
}

// Whether a row meets all of some filters.
#[cycle(asking)]
fn meets_every(alloc: Global, filters: &[FilterTree], row: &KeyOf<'_>) -> Result<bool, AllocError>
    ensures { IfOk result (λ b. b ≡ every_matches row.now.time row.now.dims.now (conditions_in filters.now)) }
{
    for filter in filters {
        if !is_met(alloc, filter, row)? {
            return Ok(false);
        }
    }
    Ok(true)
}

// Whether a row meets one of some filters.
#[cycle(asking)]
fn meets_some(alloc: Global, filters: &[FilterTree], row: &KeyOf<'_>) -> Result<bool, AllocError>
    ensures { IfOk result (λ b. b ≡ some_matches row.now.time row.now.dims.now (conditions_in filters.now)) }
{
    for filter in filters {
        if is_met(alloc, filter, row)? {
            return Ok(true);
        }
    }
    Ok(false)
}

// Whether the value of a row passes a test.
fn is_passed(alloc: Global, test: &DimensionTest, row: &KeyOf<'_>) -> Result<bool, AllocError>
    ensures { IfOk result (λ b. b ≡ holds_of test.now row.now.dims.now) }
{
    match &test.test {
        ValueTest::Like(pattern) => {
            let fits = fits_soonest(alloc, pattern.as_str(), value_at(row.dims, test.place))?;
            Ok(fits)
        }
        _ => Ok(test.holds_of(row.dims)),
    }
}
