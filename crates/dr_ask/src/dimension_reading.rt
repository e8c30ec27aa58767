ghost use Rattle.std.specs.Prelude.{option_map};
ghost use Rattle.serde_json.specs.View.{view, items_view, members_view};
ghost use Rattle.dr_base.specs.Each.{each};
ghost use Rattle.dr_ask.specs.DimensionsOf.{only_dimension, dimension_named, output_name_of, string_or_absent, dimension_object, dimension_of, dimensions_of};
ghost use Rattle.dr_ask.specs.Refusal.{Gives};

use crate::dimension::Dimension;
use crate::dimensions::Dimensions;
use crate::fields::{no_unlisted, only_text};
use crate::query_error::QueryError;
use dr_base::{Text, field, list_value, text_field, text_value, wrong_kind};
use dr_schema::Schema;
use serde_json::{Map, Value};
use std::alloc::Global;

/// The dimensions of a groupBy, none where they are absent. Refusals: 3 `WrongKind` of `dimensions`, and those of each in
/// turn: 75 `DimensionIsMetric`, 76 `Unsupported` with another type or `outputType`, 2 and 3 of its fields, 76 with another
/// key.
pub fn dimensions(
    alloc: Global,
    value: Option<&Value>,
    schema: &Schema,
) -> Result<Dimensions, QueryError>
    ensures { Gives (λ d. d) result (dimensions_of schema.now (option_map (λ v. view v.now) value.entry)) }
{
    match value {
        Some(value) => each(alloc, list_value(alloc, value, "dimensions")?, schema),
        None => Ok(Dimensions::new(alloc)),
    }
}

fn each(alloc: Global, values: &[Value], schema: &Schema) -> Result<Dimensions, QueryError>
    ensures { Gives (λ d. d) result (each (dimension_of schema.now) (items_view values.now)) }
{
    let mut dimensions = Dimensions::new(alloc);
    for value in values {
        dimensions.push(dimension(alloc, value, schema)?)?;
    }
    Ok(dimensions)
}

fn dimension(alloc: Global, value: &Value, schema: &Schema) -> Result<Dimension, QueryError>
    ensures { Gives (λ d. d) result (dimension_of schema.now (view value.now)) }
{
    match value {
        Value::String(name) => dimension_named(alloc, name.as_str(), schema),
        Value::Object(members) => dimension_object(alloc, value, members, schema),
        _ => Err(QueryError::Base(wrong_kind(alloc, "dimensions"))),
    }
}

/// The dimension of that name, which is the name of its output too.
#[tactic(auto, unfolding(crate::specs::DimensionsOf::dimension_named))]
fn dimension_named(alloc: Global, name: &str, schema: &Schema) -> Result<Dimension, QueryError>
    ensures { Gives (λ d. d) result (dimension_named schema.now name.now) }
{
    only_dimension(alloc, name, schema)?;
    Ok(Dimension {
        name: Text::from_str(alloc, name)?,
        place: schema.dimension_place(name),
    })
}

#[tactic(auto, unfolding(crate::specs::DimensionsOf::dimension_object, dr_base::specs::Unlisted::unlisted))]
fn dimension_object(
    alloc: Global,
    value: &Value,
    members: &Map<String, Value>,
    schema: &Schema,
) -> Result<Dimension, QueryError>
    ensures { Gives (λ d. d) result (dimension_object schema.now (view value.now) (members_view members.now.entries)) }
{
    let kind = text_field(alloc, value, "type")?;
    only_text(alloc, kind, "default")?;
    let name = text_field(alloc, value, "dimension")?;
    only_dimension(alloc, name, schema)?;
    let output = output_name(alloc, field(value, "outputName"), name)?;
    string_or_absent(alloc, field(value, "outputType"))?;
    let keys = ["type", "dimension", "outputName", "outputType"];
    no_unlisted(alloc, members, &keys)?;
    Ok(Dimension {
        name: Text::from_str(alloc, output)?,
        place: schema.dimension_place(name),
    })
}

/// Refuses a metric and `__time`, by 75 `DimensionIsMetric`.
fn only_dimension(alloc: Global, name: &str, schema: &Schema) -> Result<(), QueryError>
    ensures { Gives (λ u. u) result (only_dimension schema.now name.now) }
{
    if schema.is_no_dimension(name) {
        Err(QueryError::DimensionIsMetric(Text::from_str(alloc, name)?))
    } else {
        Ok(())
    }
}

/// The name of an output, that of the dimension where it is absent. Refusals: 3 `WrongKind` of `outputName`.
fn output_name<'v>(
    alloc: Global,
    value: Option<&'v Value>,
    name: &'v str,
) -> Result<&'v str, QueryError>
    ensures { Gives (λ t. t.now) result (output_name_of name.now (option_map (λ v. view v.now) value.entry)) }
{
    match value {
        Some(value) => Ok(text_value(alloc, value, "outputName")?),
        None => Ok(name),
    }
}

/// Refuses each `outputType` but `STRING`, by 3 `WrongKind`, and by 76 with another text.
fn string_or_absent(alloc: Global, value: Option<&Value>) -> Result<(), QueryError>
    ensures { Gives (λ u. u) result (string_or_absent (option_map (λ v. view v.now) value.entry)) }
{
    match value {
        Some(value) => only_text(alloc, text_value(alloc, value, "outputType")?, "STRING"),
        None => Ok(()),
    }
}
