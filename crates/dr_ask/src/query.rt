ghost use Rattle.std.specs.Prelude.{◌≡◌, IfOk, option_map};
ghost use Rattle.serde_json.specs.View.{view, members_view};
ghost use Rattle.dr_filter.specs.Condition.{condition_in};
ghost use Rattle.dr_ask.specs.MadeFor.{MadeFor};
ghost use Rattle.dr_ask.specs.Asked.{asked, asked_shape, is_scan};
ghost use Rattle.dr_ask.specs.Matching.{is_matching, all_match, aggregation_matches, matches_optional};
ghost use Rattle.dr_ask.specs.QueryOf.{granularity_of, only_all, scan_granularity_of, granularity_by, filter_or_none, aggregations_by, asked_of, query_of};
ghost use Rattle.dr_ask.specs.Refusal.{Gives};

use crate::aggregation::Aggregation;
use crate::aggregation_reading::aggregations;
use crate::aggregations::Aggregations;
use crate::column::Column;
use crate::query_error::QueryError;
use crate::query_type::{QueryType, type_named};
use crate::shape::Shape;
use crate::shape_reading::read_shape;
use crate::sources::data_source;
use dr_agg::{Kind, matches};
use dr_base::{Text, field, object, parse_json, required, text_field};
use dr_filter::Filter;
use dr_gran::Gran;
use dr_intervals::intervals;
use dr_schema::Schema;
use dr_time::Union;
use serde_json::{Map, Value};
use std::alloc::Global;

/// A native query of type `timeseries`, `groupBy` or `scan` (Apache Druid documentation, native queries), made for one schema.
/// Contracts see what it asks, `asked`.
#[derive(Drop)]
pub struct Query {
    pub intervals: Union,
    pub granularity: Gran,
    pub filter: Option<Filter>,
    /// None in a scan.
    pub aggregations: Aggregations,
    pub shape: Shape,
    /// Whether the rows of the schema are rolled up.
    pub rollup: bool,
}

impl Query {
    /// The query that a text of JSON in UTF-8 spells for a schema (Apache Druid documentation, native queries). A key that is
    /// not read passes where it holds null, false, `[]` or `{}`, and where several things are refused, the first in this order
    /// is told:
    ///
    /// - 1 `NotJson`: the bytes are no JSON text; 3 `WrongKind` `query`: it is no object;
    /// - `queryType`, a text: 70 `UnknownQueryType` with another text than `timeseries`, `groupBy` and `scan`;
    /// - `dataSource`, the name of the schema's, or the object of type `table` with it: 71 `WrongDataSource`, 76;
    /// - `intervals`, as [`dr_intervals::intervals`] reads them: 11 to 13, 76;
    /// - `granularity`, as [`dr_gran::Gran::parse`] reads it: 22; of a scan it may be absent, and is 76 `granularity` where it is
    ///   another than `all`;
    /// - `filter`, which may be absent, as [`dr_filter::Filter::parse`] reads it: 60 to 62;
    /// - `aggregations`, which a scan doesn't read, a list that may be absent, each member whole in turn: 76 with a `type` other
    ///   than `count`, `longSum`, `longMin`, `longMax`; `name`; but for a count `fieldName`, and 74 `FieldIsDimension` with it
    ///   where it is a dimension or `__time`; 76 with the first key in byte order that is not one of these;
    /// - of a groupBy `dimensions`, a list that may be absent, each a name or an object of type `default`, whole in turn: 75
    ///   `DimensionIsMetric` with a metric or `__time`, 76;
    /// - 72 `DuplicateOutput` with the first name of a dimension, then of an aggregation, that stood before;
    /// - of a groupBy `having`, as [`dr_having::Having::parse`] reads it: 62, 76, 77; `limitSpec`, as
    ///   [`dr_order::LimitSpec::parse`] reads it: 73, 76;
    /// - of a timeseries `descending` and `limit`: 3;
    /// - of a scan `columns`, a list of texts, member by member, which stands for `__time`, the dimensions and the metrics where
    ///   it is empty or absent: 3, 72 `DuplicateOutput` with the first name that stood before; `order`, one of `none`,
    ///   `ascending`, `descending`, and `resultFormat`, one of `list`, `compactedList`: 76 with another text; `batchSize`, a
    ///   whole number of 1 at least, 20480 where it is absent, `offset` and `limit`: 3;
    /// - `context`: 3 of `skipEmptyBuckets`, 76 `grandTotal` and `sortByDimsFirst` unless null or false;
    /// - 76 with the first key of the query in byte order that is not one of these.
    ///
    /// A field that is required and absent or null is 2 `Missing` with its name, and one of another kind 3 `WrongKind`. 0
    /// `NoMemory` may come in the place of any other answer. It takes memory by the bytes of the text, and time by them and,
    /// for each name in them, by the columns of the schema and the outputs of the query.
    #[tactic(auto, unfolding(crate::specs::QueryOf::query_of))]
    pub fn parse(alloc: Global, bytes: &[u8], schema: &Schema) -> Result<Query, QueryError>
        ensures value { Gives asked result (query_of schema.now bytes.now) }
        ensures made { IfOk result (λ q. MadeFor schema.now (asked q)) }
    {
        let value = parse_json(alloc, bytes)?;
        let members = object(alloc, &value, "query")?;
        let kind = type_named(alloc, text_field(alloc, &value, "queryType")?)?;
        data_source(alloc, &value, schema.data_source())?;
        read_query(alloc, &value, members, kind, schema)
    }

    /// Whether the answer over rolled up rows is, for each list of events, the answer over the events themselves: each
    /// aggregation reads a column that it combines as the rollup does, or a column that isn't there. A count counts rows,
    /// which rollup makes fewer. Where rows are not rolled up, each timeseries and groupBy matches. A scan shows the rows
    /// themselves, and doesn't match. It takes no memory, and time by the aggregations.
    pub fn is_matching(&self) -> bool
        ensures { result ≡ is_matching (asked self.now) }
    {
        !self.is_scan() && (!self.rollup || all_match(self.aggregations.as_slice()))
    }

    /// Whether it asks for rows, and not for groups of them. It takes no memory, and constant time.
    pub fn is_scan(&self) -> bool
        ensures { result ≡ is_scan (asked_shape self.now.shape) }
    {
        matches!(self.shape, Shape::Scan(_))
    }
}

/// What a query of this type asks, of the schema's data source.
#[tactic(auto, unfolding(crate::specs::QueryOf::asked_of))]
fn read_query(
    alloc: Global,
    value: &Value,
    members: &Map<String, Value>,
    kind: QueryType,
    schema: &Schema,
) -> Result<Query, QueryError>
    ensures value { Gives asked result (asked_of schema.now kind (view value.now) (members_view members.now.entries)) }
    ensures made { IfOk result (λ q. MadeFor schema.now (asked q)) }
{
    let intervals = intervals(alloc, value)?;
    let granularity = granularity_by(alloc, kind, value)?;
    let filter = filter(alloc, field(value, "filter"), schema)?;
    let aggregations = aggregations_by(alloc, kind, field(value, "aggregations"), schema)?;
    let shape = read_shape(alloc, value, members, kind, &aggregations, schema)?;
    Ok(Query {
        intervals,
        granularity,
        filter,
        aggregations,
        shape,
        rollup: schema.rollup(),
    })
}

fn all_match(aggregations: &[Aggregation]) -> bool
    ensures { result ≡ all_match aggregations.now }
{
    aggregations
        .iter()
        .all(|aggregation| matches_events(aggregation))
}

fn matches_events(aggregation: &Aggregation) -> bool
    ensures { result ≡ aggregation_matches aggregation.now }
{
    match aggregation.kind {
        Kind::Count => false,
        kind => matches_optional(kind, &aggregation.column),
    }
}

fn matches_optional(kind: Kind, column: &Option<Column>) -> bool
    ensures { result ≡ matches_optional kind column.now }
{
    match column {
        Some(column) => matches(kind, column.kind),
        None => true,
    }
}

fn granularity_by(alloc: Global, kind: QueryType, value: &Value) -> Result<Gran, QueryError>
    ensures { Gives (λ g. g) result (granularity_by kind (view value.now)) }
{
    match kind {
        QueryType::Timeseries | QueryType::GroupBy => granularity(alloc, value),
        QueryType::Scan => scan_granularity(alloc, field(value, "granularity")),
    }
}

/// The granularity of a scan, which is `all`. Refusals: 22, and 76 `Unsupported` `granularity` for another one.
fn scan_granularity(alloc: Global, value: Option<&Value>) -> Result<Gran, QueryError>
    ensures { Gives (λ g. g) result (scan_granularity_of (option_map (λ v. view v.now) value.entry)) }
{
    match value {
        Some(value) => only_all(alloc, Gran::parse(alloc, value)?),
        None => Ok(Gran::AllTime),
    }
}

fn only_all(alloc: Global, granularity: Gran) -> Result<Gran, QueryError>
    ensures { Gives (λ g. g) result (only_all granularity) }
{
    if granularity.is_all() {
        Ok(granularity)
    } else {
        Err(QueryError::Unsupported(Text::from_str(alloc, "granularity")?))
    }
}

/// The aggregations of a query, of which a scan has none.
fn aggregations_by(
    alloc: Global,
    kind: QueryType,
    value: Option<&Value>,
    schema: &Schema,
) -> Result<Aggregations, QueryError>
    ensures { Gives (λ a. a) result (aggregations_by kind schema.now (option_map (λ v. view v.now) value.entry)) }
{
    match kind {
        QueryType::Timeseries | QueryType::GroupBy => aggregations(alloc, value, schema),
        QueryType::Scan => Ok(Aggregations::new(alloc)),
    }
}

#[tactic(auto, unfolding(crate::specs::QueryOf::granularity_of))]
fn granularity(alloc: Global, value: &Value) -> Result<Gran, QueryError>
    ensures { Gives (λ g. g) result (granularity_of (view value.now)) }
{
    let found = required(alloc, value, "granularity")?;
    Ok(Gran::parse(alloc, found)?)
}

/// A filter, none where it is absent.
fn filter(
    alloc: Global,
    value: Option<&Value>,
    schema: &Schema,
) -> Result<Option<Filter>, QueryError>
    ensures { Gives (option_map condition_in) result (filter_or_none schema.now (option_map (λ v. view v.now) value.entry)) }
{
    match value {
        Some(value) => Ok(Some(Filter::parse(alloc, value, schema)?)),
        None => Ok(None),
    }
}
