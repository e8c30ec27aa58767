ghost use Rattle.std.specs.Prelude.{◌≡◌, [], IfSome, map, reverse, if◌then◌else◌};
ghost use Rattle.dr_answers.specs.AnswerRefusal.{Answers};
ghost use Rattle.dr_answers.specs.Given.{given_by};
ghost use Rattle.dr_answers.specs.Spread.{spread_over};
ghost use Rattle.dr_ask.specs.Asked.{timeseries};
ghost use Rattle.dr_ask.specs.Once.{asked_once};
ghost use Rattle.dr_finish.specs.Finished.{few_given, few_of};
ghost use Rattle.dr_partial.specs.Partial.{groups_by};
ghost use Rattle.dr_time.specs.Instant.{IsInstant};

use crate::filling::filled;
use crate::limiting::limited;
use crate::listing::listed;
use crate::spreading::spread_buckets;
use dr_answers::{AnswerError, ResultRow};
use dr_ask::{Query, Timeseries};
use dr_partial::Partial;
use std::alloc::Global;

/// The buckets that a timeseries gives, in their order. Refusals: 81 `ResultTooLarge` where there are over 100000 before any
/// limit.
pub fn given_buckets(
    alloc: Global,
    query: &Query,
    series: Timeseries,
    partial: Partial,
    span: Option<(i64, i64)>,
) -> Result<Vec<ResultRow>, AnswerError>
    requires { IfSome span (λ s. IsInstant s.0 × IsInstant s.1) }
    ensures { Answers (λ given. given.items) result (few_given (timeseries series) (map (spread_over [] query.now.aggregations) (groups_by (timeseries series) (asked_once query.now) span partial))) }
{
    let buckets = buckets(alloc, query, series, partial, span)?;
    let given = given_of(series, buckets);
    let spread = spread_buckets(alloc, &query.aggregations, given)?;
    Ok(spread)
}

// The buckets of a timeseries, with those that no row lies in unless it skips them.
fn buckets(
    alloc: Global,
    query: &Query,
    series: Timeseries,
    partial: Partial,
    span: Option<(i64, i64)>,
) -> Result<Vec<ResultRow>, AnswerError>
    requires { IfSome span (λ s. IsInstant s.0 × IsInstant s.1) }
    ensures { Answers (λ buckets. buckets.items) result (few_of (groups_by (timeseries series) (asked_once query.now) span partial)) }
{
    if series.skips_empty_buckets {
        listed(alloc, partial)
    } else {
        filled(alloc, query, &partial, span)
    }
}

// Of the buckets of a timeseries those that it gives, in their order.
fn given_of(series: Timeseries, buckets: Vec<ResultRow>) -> Vec<ResultRow>
    ensures { result.items ≡ given_by (timeseries series) buckets.items }
{
    limited(directed(buckets, series.descending), series.limit)
}

fn directed(buckets: Vec<ResultRow>, descending: bool) -> Vec<ResultRow>
    ensures { result.items ≡ (if descending then reverse buckets.items else buckets.items) }
{
    let mut directed = buckets;
    if descending {
        directed.reverse();
    }
    directed
}
