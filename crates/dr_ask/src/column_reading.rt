ghost use Rattle.std.specs.Prelude.{◌≡◌, ◌++◌, ◌∷◌, [], IfOk, OnOk, map, option_map};
ghost use Rattle.serde_json.specs.View.{view, items_view};
ghost use Rattle.dr_ask.specs.ColumnsOf.{all_names, source_named, column_named, columns_named, name_of, names_from, names_of, columns_of};
ghost use Rattle.dr_ask.specs.Refusal.{Gives};

use crate::aggregation_reading::column;
use crate::column_source::ColumnSource;
use crate::query_error::QueryError;
use crate::scan_column::ScanColumn;
use crate::scan_columns::ScanColumns;
use dr_base::{Text, Texts, list_value, text_value};
use dr_dict::TextSet;
use dr_schema::{Metric, Schema};
use serde_json::Value;
use std::alloc::{AllocError, Global};

/// The columns of a scan: those of a list of names, or `__time`, the dimensions and the metrics of the schema where the list is
/// empty or absent. Refusals: 3 `WrongKind` of `columns`, where it is no list, or a member no text; 72 `DuplicateOutput` with
/// the first name that stood before; member by member.
#[tactic(auto, unfolding(crate::specs::ColumnsOf::columns_of))]
pub fn columns(
    alloc: Global,
    value: Option<&Value>,
    schema: &Schema,
) -> Result<ScanColumns, QueryError>
    ensures { Gives (λ c. c) result (columns_of schema.now (option_map (λ v. view v.now) value.entry)) }
{
    let names = names(alloc, value)?;
    Ok(columns_named(alloc, schema, names.as_slice())?)
}

// ---- the names

fn names(alloc: Global, value: Option<&Value>) -> Result<Texts, QueryError>
    ensures { Gives (λ t. t) result (names_of (option_map (λ v. view v.now) value.entry)) }
{
    match value {
        Some(value) => distinct_names(alloc, list_value(alloc, value, "columns")?),
        None => Ok(Texts::new(alloc)),
    }
}

fn distinct_names(alloc: Global, values: &[Value]) -> Result<Texts, QueryError>
    ensures { Gives (λ t. t) result (names_from [] (items_view values.now)) }
{
    let mut seen = TextSet::new(alloc);
    let mut names = Texts::new(alloc);
    for value in values {
        names.push(new_name(alloc, &mut seen, value)?)?;
    }
    Ok(names)
}

/// The name that a member is, which is added to those that were seen before.
#[tactic(auto, unfolding(crate::specs::ColumnsOf::name_of))]
fn new_name(alloc: Global, seen: &mut TextSet, value: &Value) -> Result<Text, QueryError>
    ensures value { Gives (λ t. t) result (name_of seen.old (view value.now)) }
    ensures seen { IfOk result (λ name. seen.new ≡ seen.old ++ name ∷ []) }
{
    let name = Text::from_str(alloc, text_value(alloc, value, "columns")?)?;
    if !seen.add(&name)? {
        return Err(QueryError::DuplicateOutput(name));
    }
    Ok(name)
}

// ---- the columns of names

/// The columns of these names, or of all names of the schema where there is none.
fn columns_named(alloc: Global, schema: &Schema, names: &[Text]) -> Result<ScanColumns, AllocError>
    ensures { IfOk result (λ c. c ≡ columns_named schema.now names.now) }
{
    if names.is_empty() {
        let all = all_names(alloc, schema)?;
        return each_column(alloc, schema, all.as_slice());
    }
    each_column(alloc, schema, names)
}

fn each_column(alloc: Global, schema: &Schema, names: &[Text]) -> Result<ScanColumns, AllocError>
    ensures { IfOk result (λ c. c ≡ map (column_named schema.now) names.now) }
{
    let mut columns = ScanColumns::new(alloc);
    for name in names {
        columns.push(ScanColumn {
            name: name.copy()?,
            source: source_named(schema, name.as_str()),
        })?;
    }
    Ok(columns)
}

/// The names of the columns of the schema.
fn all_names(alloc: Global, schema: &Schema) -> Result<Texts, AllocError>
    ensures { IfOk result (λ names. names ≡ all_names schema.now) }
{
    let mut names = Texts::new(alloc);
    names.push(Text::from_str(alloc, "__time")?)?;
    add_dimensions(&mut names, schema.dimensions().as_slice())?;
    add_metrics(&mut names, schema.metrics().as_slice())?;
    Ok(names)
}

fn add_dimensions(names: &mut Texts, dimensions: &[Text]) -> Result<(), AllocError>
    ensures { OnOk result (names.new ≡ names.old ++ dimensions.now) }
{
    for dimension in dimensions {
        names.push(dimension.copy()?)?;
    }
    Ok(())
}

fn add_metrics(names: &mut Texts, metrics: &[Metric]) -> Result<(), AllocError>
    ensures { OnOk result (names.new ≡ names.old ++ map (λ m. m.name) metrics.now) }
{
    for metric in metrics {
        names.push(metric.name.copy()?)?;
    }
    Ok(())
}

fn source_named(schema: &Schema, name: &str) -> ColumnSource
    ensures { result ≡ source_named schema.now name.now }
{
    if name == "__time" {
        return ColumnSource::Time;
    }
    match schema.dimension_place(name) {
        Some(place) => ColumnSource::Dimension(place),
        None => match column(schema.metrics(), name) {
            Some(column) => ColumnSource::Metric(column.place),
            None => ColumnSource::Unknown,
        },
    }
}
