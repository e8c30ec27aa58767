ghost use Rattle.std.specs.Prelude.{IfOk, IfSome};
ghost use Rattle.std.specs.List.{All, AllByRecursion};
ghost use Rattle.dr_answers.specs.AnswerRefusal.{Answers};
ghost use Rattle.dr_ask.specs.Asked.{asked};
ghost use Rattle.dr_finish.specs.Finished.{finished};
ghost use Rattle.dr_intervals.specs.Printable.{StartsPrintable};
ghost use Rattle.dr_time.specs.Instant.{IsInstant};
ghost use Rattle.dr_time.specs.Printed.{IsPrintable};

use crate::grouping::given_groups;
use crate::series::given_buckets;
use dr_answers::{AnswerError, ResultRow};
use dr_ask::{Query, Shape};
use dr_partial::Partial;
use std::alloc::Global;

/// The groups that a query gives, in their order, from its partial result over some rows, which has each of its dimensions
/// and aggregations once, and the span of these rows, from the least to the greatest time, both included, in milliseconds
/// since the epoch (Apache Druid documentation, timeseries and groupBy queries, having and limitSpec). The buckets of a
/// timeseries are filled, unless it skips empty ones, and turned round where it is descending; the groups of a groupBy are
/// those that its having keeps, in the order of its limitSpec, without the first ones that its offset leaves out; of either
/// there are at most as many as its limit. A scan gives none. Refusals: 81 `ResultTooLarge` where there are over 100000
/// groups or buckets before having, offset and limit; 0 `NoMemory` may come in the place of any other answer.
///
/// The values of a group are moved and not copied, but for those of the buckets of a timeseries that doesn't skip empty ones, and
/// where a dimension or an aggregation is asked for more than once.
/// A timeseries takes time and memory by its groups or buckets, and for each bucket that is filled what looking it up takes.
/// A groupBy takes time by its groups, and n log n in those that its having keeps, which are sorted once, with the columns and
/// the bytes of the dimension values for each comparison. What is asked for more than once is kept once until the groups that
/// are given are known.
pub fn finish(
    alloc: Global,
    query: &Query,
    partial: Partial,
    span: Option<(i64, i64)>,
) -> Result<Vec<ResultRow>, AnswerError>
    requires instants { IfSome span (λ s. IsInstant s.0 × IsInstant s.1) }
    requires intervals { All StartsPrintable query.now.intervals }
    requires partial { AllByRecursion (λ g. IsPrintable g.key.time) partial }
    ensures value { Answers (λ groups. groups.items) result (finished (asked query.now) span partial) }
    ensures printable { IfOk result (λ groups. AllByRecursion (λ g. IsPrintable g.time) groups.items) }
{
    let given = given(alloc, query, partial, span)?;
    Ok(given)
}

// The groups that a query gives; a scan has none.
fn given(
    alloc: Global,
    query: &Query,
    partial: Partial,
    span: Option<(i64, i64)>,
) -> Result<Vec<ResultRow>, AnswerError>
    requires { IfSome span (λ s. IsInstant s.0 × IsInstant s.1) }
    ensures { Answers (λ given. given.items) result (finished (asked query.now) span partial) }
{
    match &query.shape {
        Shape::Timeseries(series) => given_buckets(alloc, query, *series, partial, span),
        Shape::GroupBy(by) => given_groups(alloc, by, &query.aggregations, partial),
        Shape::Scan(_) => Ok(Vec::new(alloc)),
    }
}
