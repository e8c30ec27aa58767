ghost use Rattle.std.specs.Prelude.{◌≡◌, ◌&&◌, not, true, ℕ, ℤ, List, IfOk, OnOk};
ghost use Rattle.dr_filter.specs.Condition.{condition_in, conditions_in, matches, every_matches, some_matches};
ghost use Rattle.dr_base.specs.Told.{told};
ghost use Rattle.dr_filter.specs.Parts.{all_told, parts_match};
ghost use Rattle.dr_filter.specs.Same.{KeepSame};

use crate::filter_tree::FilterTree;
use crate::parts::Parts;
use std::alloc::{AllocError, Global};

/// A filter that keeps the same rows: nests of one kind are taken apart, and then the tests of each dimension are joined, and the
/// intervals. The only error is that memory ran out. It takes expected time and memory by the bytes of the filter, and `bound`s,
/// `like`s and intervals time by theirs times the logarithm of their number, all that once more for each level of a nest that comes
/// down to one test.
pub fn asked_of(alloc: Global, filter: &FilterTree) -> Result<FilterTree, AllocError>
    ensures { IfOk result (λ f. KeepSame (condition_in f) (condition_in filter.now)) }
{
    let mut parts = Parts::new(alloc);
    add(alloc, filter, &mut parts, true)?;
    Ok(parts.made(alloc)?)
}

// Adds that a filter holds, or that it doesn't.
#[cycle(asking)]
fn add(alloc: Global, filter: &FilterTree, parts: &mut Parts, holds: bool) -> Result<(), AllocError>
    ensures { OnOk result ((time : ℤ) (dims : List (List ℕ)) → parts_match time dims parts.new ≡ (parts_match time dims parts.old && told holds (matches time dims (condition_in filter.now)))) }
{
    match filter {
        FilterTree::Dimension(test) => parts.add_test(alloc, test.copy(alloc)?, holds)?,
        FilterTree::Interval(union) => parts.add_time(union.copy()?, holds)?,
        FilterTree::And(filters) => add_and(alloc, filters.as_slice(), parts, holds)?,
        FilterTree::Or(filters) => add_or(alloc, filters.as_slice(), parts, holds)?,
        FilterTree::Not(filter) => add(alloc, filter, parts, !holds)?,
    }
    Ok(())
}

#[cycle(asking)]
fn add_and(
    alloc: Global,
    filters: &[FilterTree],
    parts: &mut Parts,
    holds: bool,
) -> Result<(), AllocError>
    ensures { OnOk result ((time : ℤ) (dims : List (List ℕ)) → parts_match time dims parts.new ≡ (parts_match time dims parts.old && told holds (every_matches time dims (conditions_in filters.now)))) }
{
    if holds {
        add_all(alloc, filters, parts, true)?;
    } else {
        add_nest(alloc, filters, parts, true)?;
    }
    Ok(())
}

#[cycle(asking)]
fn add_or(
    alloc: Global,
    filters: &[FilterTree],
    parts: &mut Parts,
    holds: bool,
) -> Result<(), AllocError>
    ensures { OnOk result ((time : ℤ) (dims : List (List ℕ)) → parts_match time dims parts.new ≡ (parts_match time dims parts.old && told holds (some_matches time dims (conditions_in filters.now)))) }
{
    if holds {
        add_nest(alloc, filters, parts, false)?;
    } else {
        add_all(alloc, filters, parts, false)?;
    }
    Ok(())
}

// Adds that all of some filters hold, or that none does.
#[cycle(asking)]
fn add_all(
    alloc: Global,
    filters: &[FilterTree],
    parts: &mut Parts,
    holds: bool,
) -> Result<(), AllocError>
    ensures { OnOk result ((time : ℤ) (dims : List (List ℕ)) → parts_match time dims parts.new ≡ (parts_match time dims parts.old && all_told time dims holds filters.now)) }
{
    for filter in filters {
        add(alloc, filter, parts, holds)?;
    }
    Ok(())
}

// Adds that not all of some filters hold, or that one does: by the opposite of the one that there is, or of all of them together.
#[cycle(asking)]
fn add_nest(
    alloc: Global,
    filters: &[FilterTree],
    parts: &mut Parts,
    holds: bool,
) -> Result<(), AllocError>
    ensures { OnOk result ((time : ℤ) (dims : List (List ℕ)) → parts_match time dims parts.new ≡ (parts_match time dims parts.old && not (all_told time dims holds filters.now))) }
{
    if filters.len() == 1 {
        add(alloc, &filters[0], parts, !holds)?;
        return Ok(());
    }
    let mut nest = Parts::new(alloc);
    add_all(alloc, filters, &mut nest, holds)?;
    parts.add_made(alloc, nest.made(alloc)?, false)?;
    Ok(())
}
