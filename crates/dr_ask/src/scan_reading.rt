ghost use Rattle.std.specs.Prelude.{option_map};
ghost use Rattle.serde_json.specs.View.{view, members_view};
ghost use Rattle.dr_ask.specs.ScanOf.{order_named, order_of, format_named, format_of, some_rows, batch_size_of, offset_of, scan_of};
ghost use Rattle.dr_ask.specs.Refusal.{Gives};

use crate::column_reading::columns;
use crate::context::skips_empty_buckets;
use crate::fields::{limit, no_unlisted, whole};
use crate::query_error::QueryError;
use crate::result_format::ResultFormat;
use crate::scan::Scan;
use crate::time_order::TimeOrder;
use dr_base::{Text, field, text_value, wrong_kind};
use dr_schema::Schema;
use serde_json::{Map, Value};
use std::alloc::Global;

/// How many rows one entry of a scan has at most, where the query doesn't say.
const DEFAULT_BATCH_SIZE: u64 = 20480;

/// What a scan asks beside what every query asks.
#[tactic(auto, unfolding(crate::specs::ScanOf::scan_of, dr_base::specs::Unlisted::unlisted))]
pub fn scan(
    alloc: Global,
    value: &Value,
    members: &Map<String, Value>,
    schema: &Schema,
) -> Result<Scan, QueryError>
    ensures { Gives (λ s. s) result (scan_of schema.now (view value.now) (members_view members.now.entries)) }
{
    let columns = columns(alloc, field(value, "columns"), schema)?;
    let order = order(alloc, field(value, "order"))?;
    let result_format = result_format(alloc, field(value, "resultFormat"))?;
    let batch_size = batch_size(alloc, field(value, "batchSize"))?;
    let offset = offset(alloc, field(value, "offset"))?;
    let limit = limit(alloc, field(value, "limit"), "limit")?;
    skips_empty_buckets(alloc, field(value, "context"))?;
    let keys = [
        "queryType",
        "dataSource",
        "intervals",
        "granularity",
        "filter",
        "columns",
        "order",
        "resultFormat",
        "batchSize",
        "offset",
        "limit",
        "context",
    ];
    no_unlisted(alloc, members, &keys)?;
    Ok(Scan {
        columns,
        order,
        result_format,
        batch_size,
        offset,
        limit,
    })
}

/// The order of the rows by time, none where it is absent. Refusals: 3 `WrongKind` of `order`, 76 `Unsupported` with another
/// text.
fn order(alloc: Global, value: Option<&Value>) -> Result<Option<TimeOrder>, QueryError>
    ensures { Gives (λ o. o) result (order_of (option_map (λ v. view v.now) value.entry)) }
{
    match value {
        Some(value) => order_named(alloc, text_value(alloc, value, "order")?),
        None => Ok(None),
    }
}

fn order_named(alloc: Global, name: &str) -> Result<Option<TimeOrder>, QueryError>
    ensures { Gives (λ o. o) result (order_named name.now) }
{
    if name == "none" {
        Ok(None)
    } else if name == "ascending" {
        Ok(Some(TimeOrder::Ascending))
    } else if name == "descending" {
        Ok(Some(TimeOrder::Descending))
    } else {
        Err(QueryError::Unsupported(Text::from_str(alloc, name)?))
    }
}

/// How a row is written, as a list where it is absent. Refusals: 3 `WrongKind` of `resultFormat`, 76 `Unsupported` with another
/// text.
fn result_format(alloc: Global, value: Option<&Value>) -> Result<ResultFormat, QueryError>
    ensures { Gives (λ f. f) result (format_of (option_map (λ v. view v.now) value.entry)) }
{
    match value {
        Some(value) => format_named(alloc, text_value(alloc, value, "resultFormat")?),
        None => Ok(ResultFormat::List),
    }
}

fn format_named(alloc: Global, name: &str) -> Result<ResultFormat, QueryError>
    ensures { Gives (λ f. f) result (format_named name.now) }
{
    if name == "list" {
        Ok(ResultFormat::List)
    } else if name == "compactedList" {
        Ok(ResultFormat::CompactedList)
    } else {
        Err(QueryError::Unsupported(Text::from_str(alloc, name)?))
    }
}

/// How many rows an entry has at most, 1 at least. Refusals: 3 `WrongKind` of `batchSize`.
fn batch_size(alloc: Global, value: Option<&Value>) -> Result<u64, QueryError>
    ensures { Gives (λ n. n) result (batch_size_of (option_map (λ v. view v.now) value.entry)) }
{
    match value {
        Some(value) => some_rows(alloc, whole(alloc, value, "batchSize")?),
        None => Ok(DEFAULT_BATCH_SIZE),
    }
}

fn some_rows(alloc: Global, number: u64) -> Result<u64, QueryError>
    ensures { Gives (λ n. n) result (some_rows number) }
{
    if number == 0 {
        Err(QueryError::Base(wrong_kind(alloc, "batchSize")))
    } else {
        Ok(number)
    }
}

/// How many rows are left out at first. Refusals: 3 `WrongKind` of `offset`.
fn offset(alloc: Global, value: Option<&Value>) -> Result<u64, QueryError>
    ensures { Gives (λ n. n) result (offset_of (option_map (λ v. view v.now) value.entry)) }
{
    match value {
        Some(value) => whole(alloc, value, "offset"),
        None => Ok(0),
    }
}
