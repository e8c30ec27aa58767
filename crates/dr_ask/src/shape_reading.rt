ghost use Rattle.std.specs.Prelude.{option_map};
ghost use Rattle.serde_json.specs.View.{view, members_view};
ghost use Rattle.dr_having.specs.Condition.{condition_in};
ghost use Rattle.dr_ask.specs.Asked.{asked_groups, asked_shape};
ghost use Rattle.dr_ask.specs.ShapeOf.{timeseries_of, having_or_none, group_by_of, shape_by};
ghost use Rattle.dr_ask.specs.Refusal.{Gives};

use crate::aggregations::Aggregations;
use crate::context::skips_empty_buckets;
use crate::dimension_reading::dimensions;
use crate::fields::{limit, no_unlisted, truth};
use crate::group_by::GroupBy;
use crate::outputs::{add_names, distinct_outputs};
use crate::query_error::QueryError;
use crate::query_type::QueryType;
use crate::scan_reading::scan;
use crate::shape::Shape;
use crate::timeseries::Timeseries;
use dr_base::{Text, field};
use dr_dict::TextSet;
use dr_having::Having;
use dr_order::LimitSpec;
use dr_schema::Schema;
use serde_json::{Map, Value};
use std::alloc::Global;

/// What a query of this type asks beside what every query asks.
pub fn read_shape(
    alloc: Global,
    value: &Value,
    members: &Map<String, Value>,
    kind: QueryType,
    aggregations: &Aggregations,
    schema: &Schema,
) -> Result<Shape, QueryError>
    ensures { Gives asked_shape result (shape_by kind schema.now aggregations.now (view value.now) (members_view members.now.entries)) }
{
    match kind {
        QueryType::Timeseries => {
            let asked = timeseries(alloc, value, members, aggregations)?;
            Ok(Shape::Timeseries(asked))
        }
        QueryType::GroupBy => {
            let asked = group_by(alloc, value, members, aggregations, schema)?;
            Ok(Shape::GroupBy(asked))
        }
        QueryType::Scan => {
            let asked = scan(alloc, value, members, schema)?;
            Ok(Shape::Scan(asked))
        }
    }
}

#[tactic(auto, unfolding(crate::specs::ShapeOf::timeseries_of, dr_base::specs::Unlisted::unlisted))]
fn timeseries(
    alloc: Global,
    value: &Value,
    members: &Map<String, Value>,
    aggregations: &Aggregations,
) -> Result<Timeseries, QueryError>
    ensures { Gives (λ t. t) result (timeseries_of aggregations.now (view value.now) (members_view members.now.entries)) }
{
    let names = aggregations.names(alloc)?;
    add_names(&mut TextSet::new(alloc), names.as_slice())?;
    let descending = truth(alloc, field(value, "descending"), "descending")?;
    let limit = limit(alloc, field(value, "limit"), "limit")?;
    let skips_empty_buckets = skips_empty_buckets(alloc, field(value, "context"))?;
    let keys = [
        "queryType",
        "dataSource",
        "intervals",
        "granularity",
        "filter",
        "aggregations",
        "descending",
        "limit",
        "context",
    ];
    no_unlisted(alloc, members, &keys)?;
    Ok(Timeseries {
        descending,
        limit,
        skips_empty_buckets,
    })
}

#[tactic(auto, unfolding(crate::specs::ShapeOf::group_by_of, dr_base::specs::Unlisted::unlisted))]
fn group_by(
    alloc: Global,
    value: &Value,
    members: &Map<String, Value>,
    aggregations: &Aggregations,
    schema: &Schema,
) -> Result<GroupBy, QueryError>
    ensures { Gives asked_groups result (group_by_of schema.now aggregations.now (view value.now) (members_view members.now.entries)) }
{
    let dimensions = dimensions(alloc, field(value, "dimensions"), schema)?;
    let grouped = dimensions.names(alloc)?;
    let folded = aggregations.names(alloc)?;
    let (grouped, folded) = (grouped.as_slice(), folded.as_slice());
    distinct_outputs(alloc, grouped, folded)?;
    let having = having(alloc, field(value, "having"), grouped, folded)?;
    let limit_spec = LimitSpec::parse(alloc, field(value, "limitSpec"), grouped, folded)?;
    skips_empty_buckets(alloc, field(value, "context"))?;
    let keys = [
        "queryType",
        "dataSource",
        "intervals",
        "granularity",
        "filter",
        "aggregations",
        "dimensions",
        "having",
        "limitSpec",
        "context",
    ];
    no_unlisted(alloc, members, &keys)?;
    Ok(GroupBy {
        dimensions,
        having,
        limit_spec,
    })
}

/// A `having`, none where it is absent.
fn having(
    alloc: Global,
    value: Option<&Value>,
    dimensions: &[Text],
    aggregations: &[Text],
) -> Result<Option<Having>, QueryError>
    ensures { Gives (option_map condition_in) result (having_or_none dimensions.now aggregations.now (option_map (λ v. view v.now) value.entry)) }
{
    match value {
        Some(value) => Ok(Some(Having::parse(alloc, value, dimensions, aggregations)?)),
        None => Ok(None),
    }
}
