ghost use Rattle.std.specs.Prelude.{option_map, ◌≡◌};
ghost use Rattle.serde_json.specs.View.{view};
ghost use Rattle.dr_spec.specs.Refusal.{Gives};
ghost use Rattle.dr_spec.specs.SpecOf.{inner_of, data_schema_of, source_of, is_empty, no_transform, only_listed_keys, spec_of};

use crate::columns::{distinct_columns, few_columns};
use crate::dimensions_spec::dimensions;
use crate::granularity_spec::{granularity, nested};
use crate::leniency::{only_listed, only_listed_in};
use crate::metrics_spec::metrics;
use crate::sections::not_empty;
use crate::spec_error::SpecError;
use crate::timestamp_spec::timestamp;
use crate::tuning_config::limits;
use dr_base::{Text, field, object, parse_json, required, text_field};
use dr_schema::SchemaFields;
use serde_json::Value;
use std::alloc::Global;

/// The fields of the schema that the bytes spell, or the first refusal.
#[tactic(auto, unfolding(crate::specs::SpecOf::spec_of))]
pub fn read_schema(alloc: Global, bytes: &[u8]) -> Result<SchemaFields, SpecError>
    ensures { Gives (λ s. s) result (spec_of bytes.now) }
{
    let text = parse_json(alloc, bytes)?;
    let spec = inner(alloc, &text)?;
    let value = data_schema(alloc, spec)?;
    let source = data_source(alloc, value)?;
    let timestamp = timestamp(alloc, value)?;
    let dimensions = dimensions(alloc, value)?;
    let metrics = metrics(alloc, value)?;
    let granularity = granularity(alloc, value)?;
    nested(granularity)?;
    no_transform(alloc, field(value, "transformSpec"))?;
    distinct_columns(alloc, &dimensions, &metrics)?;
    few_columns(&dimensions, &metrics)?;
    only_listed_keys(alloc, value)?;
    let limits = limits(alloc, spec)?;
    Ok(SchemaFields {
        data_source: source,
        time_column: timestamp.column,
        time_format: timestamp.format,
        dimensions,
        metrics,
        segment_granularity: granularity.segment,
        query_granularity: granularity.query,
        rollup: granularity.rollup,
        limits,
    })
}

/// The object under `spec`, or the whole where there is none. Refusals: 3 `WrongKind` of `spec` where it is no object.
#[tactic(auto, unfolding(crate::specs::SpecOf::inner_of))]
fn inner(alloc: Global, value: &Value) -> Result<&Value, SpecError>
    ensures { Gives (λ v. view v.now) result (inner_of (view value.now)) }
{
    object(alloc, value, "spec")?;
    match field(value, "spec") {
        None => Ok(value),
        Some(found) => {
            object(alloc, found, "spec")?;
            Ok(found)
        }
    }
}

/// The data schema of a spec. Refusals: 2 `Missing`, 3 `WrongKind`.
#[tactic(auto, unfolding(crate::specs::SpecOf::data_schema_of))]
fn data_schema(alloc: Global, value: &Value) -> Result<&Value, SpecError>
    ensures { Gives (λ v. view v.now) result (data_schema_of (view value.now)) }
{
    let found = required(alloc, value, "dataSchema")?;
    object(alloc, found, "dataSchema")?;
    Ok(found)
}

/// The name of the data source. Refusals: 2 `Missing`, 3 `WrongKind` where it is no text or an empty one.
#[tactic(auto, unfolding(crate::specs::SpecOf::source_of))]
fn data_source(alloc: Global, value: &Value) -> Result<Text, SpecError>
    ensures { Gives (λ t. t) result (source_of (view value.now)) }
{
    let name = text_field(alloc, value, "dataSource")?;
    let name = not_empty(alloc, name, "dataSource")?;
    Ok(Text::from_str(alloc, name)?)
}

/// No transform is asked for. Refusals: 26 `Unsupported` of `transformSpec` where it is anything but an empty object.
fn no_transform(alloc: Global, value: Option<&Value>) -> Result<(), SpecError>
    ensures { Gives (λ u. u) result (no_transform (option_map (λ v. view v.now) value.entry)) }
{
    match value {
        Some(value) if !is_empty_object(value) => {
            Err(SpecError::Unsupported(Text::from_str(alloc, "transformSpec")?))
        }
        _ => Ok(()),
    }
}

fn is_empty_object(value: &Value) -> bool
    ensures { result ≡ is_empty (view value.now) }
{
    match value {
        Value::Object(members) => members.is_empty(),
        _ => false,
    }
}

/// Each object of a data schema has listed keys alone, or keys that ask for nothing, metrics aside. Refusals: 26
/// `Unsupported` of the first key that is neither.
#[tactic(auto, unfolding(crate::specs::SpecOf::only_listed_keys, dr_base::specs::Unlisted::unlisted))]
fn only_listed_keys(alloc: Global, value: &Value) -> Result<(), SpecError>
    ensures { Gives (λ u. u) result (only_listed_keys (view value.now)) }
{
    let keys = [
        "dataSource",
        "timestampSpec",
        "dimensionsSpec",
        "metricsSpec",
        "granularitySpec",
        "transformSpec",
    ];
    only_listed(alloc, value, &keys)?;
    only_listed_in(alloc, field(value, "timestampSpec"), &["column", "format"])?;
    only_listed_in(alloc, field(value, "dimensionsSpec"), &["dimensions"])?;
    let keys = ["type", "segmentGranularity", "queryGranularity", "rollup"];
    only_listed_in(alloc, field(value, "granularitySpec"), &keys)?;
    Ok(())
}
