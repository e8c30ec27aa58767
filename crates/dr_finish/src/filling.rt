ghost use Rattle.std.specs.Prelude.{◌≡◌, IfOk, IfSome, [], map, unwrap_or};
ghost use Rattle.dr_answers.specs.AnswerRefusal.{Answers};
ghost use Rattle.dr_answers.specs.Fold.{folds};
ghost use Rattle.dr_answers.specs.Groups.{filled_in};
ghost use Rattle.dr_ask.specs.Once.{asked_once};
ghost use Rattle.dr_partial.specs.Partial.{filled_row, values_at};
ghost use Rattle.dr_time.specs.Instant.{IsInstant};
ghost use Rattle.dr_finish.specs.Finished.{few_of};

use crate::bound::MAX_GROUPS;
use dr_answers::{AnswerError, ResultRow};
use dr_ask::{Aggregation, Query};
use dr_base::{Numbers, Texts};
use dr_gran::Buckets;
use dr_partial::Partial;
use std::alloc::{AllocError, Global};

/// The buckets of a query that hold a millisecond both of its intervals and of a span of times, rising, each with its folds;
/// those of no row where no group is of that bucket. Refusals: 81 `ResultTooLarge` where there are over 100000 buckets, before
/// any of them is filled.
pub fn filled(
    alloc: Global,
    query: &Query,
    partial: &Partial,
    span: Option<(i64, i64)>,
) -> Result<Vec<ResultRow>, AnswerError>
    requires { IfSome span (λ s. IsInstant s.0 × IsInstant s.1) }
    ensures { Answers (λ groups. groups.items) result (few_of (map (filled_row (asked_once query.now) partial.now) (filled_in (asked_once query.now) span))) }
{
    let starts = starts(alloc, query, span)?;
    if starts.len() > MAX_GROUPS {
        return Err(AnswerError::ResultTooLarge);
    }
    Ok(filled_rows(alloc, query, partial, &starts)?)
}

/// The starts of the buckets, at most one more than an answer may have.
fn starts(alloc: Global, query: &Query, span: Option<(i64, i64)>) -> Result<Vec<i64>, AllocError>
    requires { IfSome span (λ s. IsInstant s.0 × IsInstant s.1) }
    ensures { IfOk result (λ starts. starts.items ≡ filled_in (asked_once query.now) span) }
{
    match span {
        None => Ok(Vec::new(alloc)),
        Some((from, to)) => collected(
            alloc,
            Buckets::new(
                query.granularity,
                &query.intervals,
                from,
                to,
                MAX_GROUPS + 1,
            ),
        ),
    }
}

fn collected(alloc: Global, buckets: Buckets<'_>) -> Result<Vec<i64>, AllocError>
    ensures { IfOk result (λ starts. starts.items ≡ buckets.entry) }
{
    let mut starts = Vec::new(alloc);
    for start in buckets {
        starts.push(start)?;
    }
    Ok(starts)
}

fn filled_rows(
    alloc: Global,
    query: &Query,
    partial: &Partial,
    starts: &[i64],
) -> Result<Vec<ResultRow>, AllocError>
    ensures { IfOk result (λ rows. rows.items ≡ map (filled_row (asked_once query.now) partial.now) starts.now) }
{
    let mut rows = Vec::with_capacity(alloc, starts.len())?;
    for start in starts {
        rows.push(filled_row(alloc, query, partial, *start)?)?;
    }
    Ok(rows)
}

fn filled_row(
    alloc: Global,
    query: &Query,
    partial: &Partial,
    start: i64,
) -> Result<ResultRow, AllocError>
    ensures { IfOk result (λ row. row ≡ filled_row (asked_once query.now) partial.now start) }
{
    Ok(ResultRow {
        time: start,
        dims: Texts::new(alloc),
        values: values_of(alloc, query, partial, start)?,
    })
}

fn values_of(
    alloc: Global,
    query: &Query,
    partial: &Partial,
    start: i64,
) -> Result<Numbers, AllocError>
    ensures { IfOk result (λ values. values ≡ unwrap_or (values_at start partial.now) (folds (asked_once query.now).aggregations [])) }
{
    match partial.values_at(start) {
        Some(values) => Ok(Numbers::from_vec(Vec::from_slice(alloc, values)?)),
        None => units(alloc, query.aggregations.distinct()),
    }
}

/// What the aggregations fold no row to.
fn units(alloc: Global, aggregations: &[Aggregation]) -> Result<Numbers, AllocError>
    ensures { IfOk result (λ values. values ≡ folds aggregations.now []) }
{
    let mut values = Numbers::new(alloc);
    for aggregation in aggregations {
        values.push(aggregation.kind.unit())?;
    }
    Ok(values)
}
