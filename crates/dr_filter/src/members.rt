ghost use Rattle.std.specs.Prelude.{◌≡◌, ◌&&◌, not, ℕ, ℤ, List, IfOk, OnOk};
ghost use Rattle.dr_base.specs.Told.{told};
ghost use Rattle.dr_time.specs.Union.{union_holds};
ghost use Rattle.dr_predicate.specs.Asked.{dimensions_told};
ghost use Rattle.dr_predicate.specs.Match.{holds_of};
ghost use Rattle.dr_filter.specs.Condition.{condition_in, conditions_in, matches, every_matches};
ghost use Rattle.dr_filter.specs.Times.{every_held, some_held};

use crate::filter_tree::FilterTree;
use crate::times::{every_time, some_time};
use dr_predicate::ToldDimension;
use dr_time::Union;
use std::alloc::{AllocError, Global};

/// One filter for all of some: the one that there is, or their `and`.
pub fn all_of(members: Vec<FilterTree>) -> FilterTree
    ensures { (time : ℤ) (dims : List (List ℕ)) → matches time dims (condition_in result) ≡ every_matches time dims (conditions_in members.items) }
{
    let mut members = members;
    if members.len() != 1 {
        return FilterTree::And(members);
    }
    match members.pop() {
        Some(member) => member,
        None => FilterTree::And(members),
    }
}

/// Puts some tests, each of which is to hold or not to, behind the members of an `and`. The only error is that memory ran out.
pub fn put_tests(
    alloc: Global,
    members: &mut Vec<FilterTree>,
    tests: Vec<ToldDimension>,
) -> Result<(), AllocError>
    ensures { OnOk result ((time : ℤ) (dims : List (List ℕ)) → every_matches time dims (conditions_in members.new.items) ≡ (every_matches time dims (conditions_in members.old.items) && dimensions_told dims tests.items)) }
{
    for test in tests {
        members.push(filter_of(alloc, test)?)?;
    }
    Ok(())
}

fn filter_of(alloc: Global, one: ToldDimension) -> Result<FilterTree, AllocError>
    ensures { IfOk result (λ f. (time : ℤ) (dims : List (List ℕ)) → matches time dims (condition_in f) ≡ told one.holds (holds_of one.test dims)) }
{
    let ToldDimension { test, holds } = one;
    let filter = FilterTree::of_test(test);
    if holds {
        Ok(filter)
    } else {
        Ok(filter.denied(alloc)?)
    }
}

/// Puts one condition behind the members of an `and`, where something is asked of the time: that it lies in all of some unions and in
/// none of some others. The only error is that memory ran out.
pub fn put_times(
    alloc: Global,
    members: &mut Vec<FilterTree>,
    unions: &[Union],
    others: &[Union],
) -> Result<(), AllocError>
    ensures { OnOk result ((time : ℤ) (dims : List (List ℕ)) → every_matches time dims (conditions_in members.new.items) ≡ (every_matches time dims (conditions_in members.old.items) && (every_held time unions.now && not (some_held time others.now)))) }
{
    match every_time(unions)? {
        Some(union) => put_time(alloc, members, &union, others)?,
        None => put_no_times(alloc, members, others)?,
    }
    Ok(())
}

// Puts what a union holds and none of some others.
fn put_time(
    alloc: Global,
    members: &mut Vec<FilterTree>,
    union: &Union,
    others: &[Union],
) -> Result<(), AllocError>
    ensures { OnOk result ((time : ℤ) (dims : List (List ℕ)) → every_matches time dims (conditions_in members.new.items) ≡ (every_matches time dims (conditions_in members.old.items) && (union_holds union.now time && not (some_held time others.now)))) }
{
    let left = union.difference(&some_time(alloc, others)?)?;
    members.push(FilterTree::of_intervals(left))?;
    Ok(())
}

// Puts the `not` of what one of some unions holds, where there are any.
fn put_no_times(
    alloc: Global,
    members: &mut Vec<FilterTree>,
    unions: &[Union],
) -> Result<(), AllocError>
    ensures { OnOk result ((time : ℤ) (dims : List (List ℕ)) → every_matches time dims (conditions_in members.new.items) ≡ (every_matches time dims (conditions_in members.old.items) && not (some_held time unions.now))) }
{
    if unions.is_empty() {
        return Ok(());
    }
    let union = some_time(alloc, unions)?;
    members.push(FilterTree::of_intervals(union).denied(alloc)?)?;
    Ok(())
}

/// Puts some filters behind the members of an `and`. The only error is that memory ran out.
pub fn put_filters(
    members: &mut Vec<FilterTree>,
    filters: Vec<FilterTree>,
) -> Result<(), AllocError>
    ensures { OnOk result ((time : ℤ) (dims : List (List ℕ)) → every_matches time dims (conditions_in members.new.items) ≡ (every_matches time dims (conditions_in members.old.items) && every_matches time dims (conditions_in filters.items))) }
{
    let mut filters = filters;
    members.append(&mut filters)?;
    Ok(())
}
