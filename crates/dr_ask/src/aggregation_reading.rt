ghost use Rattle.std.specs.Prelude.{◌≡◌, ◌||◌, option_map, bytes_eq};
ghost use Rattle.std.specs.List.{list_any};
ghost use Rattle.serde_json.specs.View.{view, items_view, members_view};
ghost use Rattle.dr_base.specs.Each.{each};
ghost use Rattle.dr_ask.specs.AggregationsOf.{is_dimension, column_of, kind_named, count_of, over_column_of, aggregation_of, aggregations_of};
ghost use Rattle.dr_ask.specs.Refusal.{Gives};

use crate::aggregation::Aggregation;
use crate::aggregations::Aggregations;
use crate::column::Column;
use crate::fields::no_unlisted;
use crate::query_error::QueryError;
use dr_agg::Kind;
use dr_base::{Text, list_value, object, text_field};
use dr_schema::{Metrics, Schema};
use serde_json::{Map, Value};
use std::alloc::Global;

/// The aggregations of a query, none where they are absent. Refusals: 3 `WrongKind` of `aggregations`, and those of each in
/// turn: 76 `Unsupported` with another type, 2 and 3 of its fields, 74 `FieldIsDimension`, 76 with another key.
pub fn aggregations(
    alloc: Global,
    value: Option<&Value>,
    schema: &Schema,
) -> Result<Aggregations, QueryError>
    ensures { Gives (λ a. a) result (aggregations_of schema.now (option_map (λ v. view v.now) value.entry)) }
{
    match value {
        Some(value) => each(alloc, list_value(alloc, value, "aggregations")?, schema),
        None => Ok(Aggregations::new(alloc)),
    }
}

fn each(alloc: Global, values: &[Value], schema: &Schema) -> Result<Aggregations, QueryError>
    ensures { Gives (λ a. a) result (each (aggregation_of schema.now) (items_view values.now)) }
{
    let mut aggregations = Aggregations::new(alloc);
    for value in values {
        aggregations.push(aggregation(alloc, value, schema)?)?;
    }
    Ok(aggregations)
}

#[tactic(auto, unfolding(crate::specs::AggregationsOf::aggregation_of))]
fn aggregation(alloc: Global, value: &Value, schema: &Schema) -> Result<Aggregation, QueryError>
    ensures { Gives (λ a. a) result (aggregation_of schema.now (view value.now)) }
{
    let members = object(alloc, value, "aggregations")?;
    let name = text_field(alloc, value, "type")?;
    match kind_named(name) {
        Some(Kind::Count) => count(alloc, value, members),
        Some(kind) => over_column(alloc, value, members, kind, schema),
        None => Err(QueryError::Unsupported(Text::from_str(alloc, name)?)),
    }
}

/// The kind of an aggregation by its type.
fn kind_named(name: &str) -> Option<Kind>
    ensures { result ≡ kind_named name.now }
{
    if name == "count" {
        Some(Kind::Count)
    } else if name == "longSum" {
        Some(Kind::LongSum)
    } else if name == "longMin" {
        Some(Kind::LongMin)
    } else if name == "longMax" {
        Some(Kind::LongMax)
    } else {
        None
    }
}

#[tactic(auto, unfolding(crate::specs::AggregationsOf::count_of))]
fn count(
    alloc: Global,
    value: &Value,
    members: &Map<String, Value>,
) -> Result<Aggregation, QueryError>
    ensures { Gives (λ a. a) result (count_of (view value.now) (members_view members.now.entries)) }
{
    let name = text_field(alloc, value, "name")?;
    no_unlisted(alloc, members, &["type", "name"])?;
    Ok(Aggregation {
        name: Text::from_str(alloc, name)?,
        kind: Kind::Count,
        column: None,
    })
}

#[tactic(auto, unfolding(crate::specs::AggregationsOf::over_column_of))]
fn over_column(
    alloc: Global,
    value: &Value,
    members: &Map<String, Value>,
    kind: Kind,
    schema: &Schema,
) -> Result<Aggregation, QueryError>
    ensures { Gives (λ a. a) result (over_column_of kind schema.now (view value.now) (members_view members.now.entries)) }
{
    let name = text_field(alloc, value, "name")?;
    let read = text_field(alloc, value, "fieldName")?;
    if is_dimension(schema, read) {
        return Err(QueryError::FieldIsDimension(Text::from_str(alloc, read)?));
    }
    no_unlisted(alloc, members, &["type", "name", "fieldName"])?;
    Ok(Aggregation {
        name: Text::from_str(alloc, name)?,
        kind,
        column: column(schema.metrics(), read),
    })
}

fn is_dimension(schema: &Schema, name: &str) -> bool
    ensures { result ≡ is_dimension schema.now name.now }
{
    name == "__time" || is_among(name, schema.dimensions().as_slice())
}

fn is_among(name: &str, names: &[Text]) -> bool
    ensures { result ≡ list_any (bytes_eq name.now) names.now }
{
    names.iter().any(|other| name == other.as_str())
}

/// The first metric of that name; none where no metric has it.
pub fn column(metrics: &Metrics, name: &str) -> Option<Column>
    ensures { result ≡ column_of metrics.now name.now }
{
    for (place, metric) in metrics.as_slice().iter().enumerate() {
        if metric.name.as_str() == name {
            return Some(Column {
                place,
                kind: metric.kind,
            });
        }
    }
    None
}
