ghost use Rattle.std.specs.Prelude.{◌≡◌, ◌||◌, ◌&&◌, option_map, bytes_eq};
ghost use Rattle.std.specs.List.{position};
ghost use Rattle.serde_json.specs.View.{view, items_view, members_view};
ghost use Rattle.dr_base.specs.Each.{each};
ghost use Rattle.dr_order.specs.ColumnOf.{is_aggregation, output_among, named, direction_named, direction_of, is_known_order, only_known_order, order_object, dimension_order_of, column_object, column_of, columns_of};
ghost use Rattle.dr_order.specs.Refusal.{Gives};

use crate::fields::no_unlisted;
use crate::order_column::OrderColumn;
use crate::order_columns::OrderColumns;
use crate::order_error::OrderError;
use crate::output::Output;
use dr_base::{Text, field, list_value, object, text_field, text_value, wrong_kind};
use dr_outputs::OutputNames;
use serde_json::{Map, Value};
use std::alloc::Global;

/// The columns of a `limitSpec`, none where they are absent. Refusals: 3 `WrongKind` of `columns`, and those of each column in
/// turn.
pub fn columns(
    alloc: Global,
    value: Option<&Value>,
    dimensions: &[Text],
    aggregations: &[Text],
) -> Result<OrderColumns, OrderError>
    ensures { Gives (λ c. c) result (columns_of dimensions.now aggregations.now (option_map (λ v. view v.now) value.entry)) }
{
    match value {
        Some(value) => {
            let items = list_value(alloc, value, "columns")?;
            every(alloc, items, dimensions, aggregations)
        }
        None => Ok(OrderColumns::new(alloc)),
    }
}

fn every(
    alloc: Global,
    values: &[Value],
    dimensions: &[Text],
    aggregations: &[Text],
) -> Result<OrderColumns, OrderError>
    ensures { Gives (λ c. c) result (each (column_of dimensions.now aggregations.now) (items_view values.now)) }
{
    let dimensions = OutputNames::of(alloc, dimensions)?;
    let aggregations = OutputNames::of(alloc, aggregations)?;
    each(alloc, values, &dimensions, &aggregations)
}

fn each(
    alloc: Global,
    values: &[Value],
    dimensions: &OutputNames<'_>,
    aggregations: &OutputNames<'_>,
) -> Result<OrderColumns, OrderError>
    ensures { Gives (λ c. c) result (each (column_of dimensions.now aggregations.now) (items_view values.now)) }
{
    let mut columns = OrderColumns::new(alloc);
    for value in values {
        columns.push(column(alloc, value, dimensions, aggregations)?)?;
    }
    Ok(columns)
}

/// A column: the name of an output, or an object. Refusals: 3 of `columns` for anything else, 73 `UnknownOrderColumn` with a
/// name that no output has.
fn column(
    alloc: Global,
    value: &Value,
    dimensions: &OutputNames<'_>,
    aggregations: &OutputNames<'_>,
) -> Result<OrderColumn, OrderError>
    ensures { Gives (λ c. c) result (column_of dimensions.now aggregations.now (view value.now)) }
{
    match value {
        Value::String(name) => {
            let output = named(alloc, name.as_str(), dimensions, aggregations)?;
            Ok(OrderColumn {
                output,
                descending: false,
            })
        }
        Value::Object(members) => column_object(alloc, value, members, dimensions, aggregations),
        _ => Err(OrderError::Base(wrong_kind(alloc, "columns"))),
    }
}

#[tactic(auto, unfolding(crate::specs::ColumnOf::column_object, dr_base::specs::Unlisted::unlisted))]
fn column_object(
    alloc: Global,
    value: &Value,
    members: &Map<String, Value>,
    dimensions: &OutputNames<'_>,
    aggregations: &OutputNames<'_>,
) -> Result<OrderColumn, OrderError>
    ensures { Gives (λ c. c) result (column_object dimensions.now aggregations.now (view value.now) (members_view members.now.entries)) }
{
    let name = text_field(alloc, value, "dimension")?;
    let output = named(alloc, name, dimensions, aggregations)?;
    let descending = direction(alloc, field(value, "direction"))?;
    let order = field(value, "dimensionOrder");
    dimension_order(alloc, order, is_aggregation(output))?;
    no_unlisted(
        alloc,
        members,
        &["dimension", "direction", "dimensionOrder"],
    )?;
    Ok(OrderColumn { output, descending })
}

fn is_aggregation(output: Output) -> bool
    ensures { result ≡ is_aggregation output }
{
    match output {
        Output::Dimension(_) => false,
        Output::Aggregation(_) => true,
    }
}

/// The output of that name. Refusals: 73 `UnknownOrderColumn` with it.
fn named(
    alloc: Global,
    name: &str,
    dimensions: &OutputNames<'_>,
    aggregations: &OutputNames<'_>,
) -> Result<Output, OrderError>
    ensures { Gives (λ o. o) result (named dimensions.now aggregations.now name.now) }
{
    match output(name, dimensions, aggregations) {
        Some(output) => Ok(output),
        None => Err(OrderError::UnknownOrderColumn(Text::from_str(alloc, name)?)),
    }
}

fn output(
    name: &str,
    dimensions: &OutputNames<'_>,
    aggregations: &OutputNames<'_>,
) -> Option<Output>
    ensures { result ≡ output_among (position (bytes_eq name.now) dimensions.now) (position (bytes_eq name.now) aggregations.now) }
{
    match dimensions.place_of(name) {
        Some(place) => Some(Output::Dimension(place)),
        None => match aggregations.place_of(name) {
            Some(place) => Some(Output::Aggregation(place)),
            None => None,
        },
    }
}

/// Whether a direction is descending; an absent one isn't. Refusals: 3 of `direction`, 76 with another text.
fn direction(alloc: Global, value: Option<&Value>) -> Result<bool, OrderError>
    ensures { Gives (λ b. b) result (direction_of (option_map (λ v. view v.now) value.entry)) }
{
    match value {
        Some(value) => direction_named(alloc, text_value(alloc, value, "direction")?),
        None => Ok(false),
    }
}

fn direction_named(alloc: Global, name: &str) -> Result<bool, OrderError>
    ensures { Gives (λ b. b) result (direction_named name.now) }
{
    if name.eq_ignore_ascii_case("ascending") {
        Ok(false)
    } else if name.eq_ignore_ascii_case("descending") {
        Ok(true)
    } else {
        Err(OrderError::Unsupported(Text::from_str(alloc, name)?))
    }
}

/// The order of a column's values, which is `lexicographic`, and for an aggregation also `numeric`, where it is given: that
/// text, or an object of that type. It changes nothing. Refusals: 76 with another text or type, 2 and 3 of `type`, 76 with
/// another key of the object, 3 of `dimensionOrder`.
fn dimension_order(alloc: Global, value: Option<&Value>, of_numbers: bool) -> Result<(), OrderError>
    ensures { Gives (λ u. u) result (dimension_order_of of_numbers (option_map (λ v. view v.now) value.entry)) }
{
    match value {
        None => Ok(()),
        Some(Value::String(name)) => only_known_order(alloc, name.as_str(), of_numbers),
        Some(value) => order_object(alloc, value, of_numbers),
    }
}

#[tactic(auto, unfolding(crate::specs::ColumnOf::order_object))]
fn order_object(alloc: Global, value: &Value, of_numbers: bool) -> Result<(), OrderError>
    ensures { Gives (λ u. u) result (order_object of_numbers (view value.now)) }
{
    let members = object(alloc, value, "dimensionOrder")?;
    let name = text_field(alloc, value, "type")?;
    only_known_order(alloc, name, of_numbers)?;
    no_unlisted(alloc, members, &["type"])
}

fn only_known_order(alloc: Global, name: &str, of_numbers: bool) -> Result<(), OrderError>
    ensures { Gives (λ u. u) result (only_known_order of_numbers name.now) }
{
    if is_known_order(name, of_numbers) {
        Ok(())
    } else {
        Err(OrderError::Unsupported(Text::from_str(alloc, name)?))
    }
}

fn is_known_order(name: &str, of_numbers: bool) -> bool
    ensures { result ≡ is_known_order of_numbers name.now }
{
    name == "lexicographic" || (of_numbers && name == "numeric")
}
