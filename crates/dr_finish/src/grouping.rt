ghost use Rattle.std.specs.Prelude.{◌≡◌, IfOk, map};
ghost use Rattle.dr_answers.specs.AnswerRefusal.{Answers};
ghost use Rattle.dr_answers.specs.Given.{given_by};
ghost use Rattle.dr_answers.specs.Spread.{spread_over};
ghost use Rattle.dr_ask.specs.Asked.{asked_groups, group_by};
ghost use Rattle.dr_finish.specs.Finished.{few_given};
ghost use Rattle.dr_partial.specs.Partial.{result_row};

use crate::bound::MAX_GROUPS;
use crate::keeping::kept;
use crate::limiting::{limited, without_first};
use crate::ordering::ordered;
use crate::spreading::spread_rows;
use dr_answers::{AnswerError, ResultRow};
use dr_ask::{Aggregations, GroupBy};
use dr_partial::Partial;
use std::alloc::{AllocError, Global};

/// The groups that a groupBy gives, in their order. Those that its having drops are dropped before the others are sorted, and
/// these are sorted once: no two groups compare as equal, so in whatever order they come there is one order of them. Those that
/// are left have a value for each output then. Refusals: 81 `ResultTooLarge` where there are over 100000 before having, offset and
/// limit.
pub fn given_groups(
    alloc: Global,
    by: &GroupBy,
    aggregations: &Aggregations,
    partial: Partial,
) -> Result<Vec<ResultRow>, AnswerError>
    ensures { Answers (λ given. given.items) result (few_given (group_by (asked_groups by.now)) (map (spread_over by.now.dimensions aggregations.now) (map result_row partial))) }
{
    if partial.len() > MAX_GROUPS {
        return Err(AnswerError::ResultTooLarge);
    }
    let given = given_of(alloc, by, aggregations, partial)?;
    Ok(given)
}

// The groups that a groupBy gives, however many there are.
fn given_of(
    alloc: Global,
    by: &GroupBy,
    aggregations: &Aggregations,
    partial: Partial,
) -> Result<Vec<ResultRow>, AllocError>
    ensures { IfOk result (λ given. given.items ≡ given_by (group_by (asked_groups by.now)) (map (spread_over by.now.dimensions aggregations.now) (map result_row partial))) }
{
    let limits = &by.limit_spec;
    let groups = partial.into_groups();
    let ordered = ordered(by, aggregations, kept(by, aggregations, groups)?)?;
    let given = limited(without_first(ordered, limits.offset), limits.limit);
    let spread = spread_rows(alloc, &by.dimensions, aggregations, given)?;
    Ok(spread)
}
