ghost use Rattle.serde_json.specs.View.{view, members_view};
ghost use Rattle.dr_ask.specs.SourceOf.{only_source, source_object, source_of};
ghost use Rattle.dr_ask.specs.Refusal.{Gives};

use crate::fields::{no_unlisted, only_text};
use crate::query_error::QueryError;
use dr_base::{Text, required, text_field, text_value};
use serde_json::{Map, Value};
use std::alloc::Global;

/// Refuses each data source but the one of that name: a text, or the object `{"type":"table","name":..}`. Refusals: 2 and 3
/// of `dataSource`; of an object 76 `Unsupported` with another type, 71 `WrongDataSource` with another name, then 76 with
/// another key.
#[tactic(auto, unfolding(crate::specs::SourceOf::source_of))]
pub fn data_source(alloc: Global, value: &Value, source: &Text) -> Result<(), QueryError>
    ensures { Gives (λ u. u) result (source_of source.now (view value.now)) }
{
    let found = required(alloc, value, "dataSource")?;
    match found {
        Value::Object(members) => source_object(alloc, found, members, source),
        _ => only_source(alloc, text_value(alloc, found, "dataSource")?, source),
    }
}

#[tactic(auto, unfolding(crate::specs::SourceOf::source_object))]
fn source_object(
    alloc: Global,
    value: &Value,
    members: &Map<String, Value>,
    source: &Text,
) -> Result<(), QueryError>
    ensures { Gives (λ u. u) result (source_object source.now (view value.now) (members_view members.now.entries)) }
{
    let kind = text_field(alloc, value, "type")?;
    only_text(alloc, kind, "table")?;
    let name = text_field(alloc, value, "name")?;
    only_source(alloc, name, source)?;
    no_unlisted(alloc, members, &["type", "name"])
}

fn only_source(alloc: Global, name: &str, source: &Text) -> Result<(), QueryError>
    ensures { Gives (λ u. u) result (only_source source.now name.now) }
{
    if name == source.as_str() {
        Ok(())
    } else {
        Err(QueryError::WrongDataSource(Text::from_str(alloc, name)?))
    }
}
