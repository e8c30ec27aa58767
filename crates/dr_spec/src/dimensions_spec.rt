ghost use Rattle.serde_json.specs.View.{view, items_view};
ghost use Rattle.dr_spec.specs.Refusal.{Gives};
ghost use Rattle.dr_base.specs.Each.{each};
ghost use Rattle.dr_spec.specs.DimensionsSpec.{text_type, dimension_of, dimensions_of};

use crate::sections::{field_in, not_empty, section, text_or};
use crate::spec_error::SpecError;
use dr_base::{Text, Texts, list_value, text_field, wrong_kind};
use serde_json::Value;
use std::alloc::Global;

/// The names of the dimensions of a data schema. Refusals: 25 `NoDimensions` where there is none, those of each
/// dimension, and 3 `WrongKind`.
#[tactic(auto, unfolding(crate::specs::DimensionsSpec::dimensions_of))]
pub fn dimensions(alloc: Global, value: &Value) -> Result<Texts, SpecError>
    ensures { Gives (λ names. names) result (dimensions_of (view value.now)) }
{
    let section = section(alloc, value, "dimensionsSpec")?;
    let Some(list) = field_in(section, "dimensions") else {
        return Err(SpecError::NoDimensions);
    };
    let items = list_value(alloc, list, "dimensions")?;
    let names = names(alloc, items)?;
    if names.len() == 0 {
        return Err(SpecError::NoDimensions);
    }
    Ok(names)
}

fn names(alloc: Global, items: &[Value]) -> Result<Texts, SpecError>
    ensures { Gives (λ names. names) result (each dimension_of (items_view items.now)) }
{
    let mut names = Texts::new(alloc);
    for item in items {
        names.push(dimension(alloc, item)?)?;
    }
    Ok(names)
}

/// The name of one dimension, a text or an object. Refusals: 3 `WrongKind` where it is neither, or its name is empty,
/// 2 `Missing`, and 20 `UnsupportedDimension` of a type other than `string`.
#[tactic(auto, unfolding(crate::specs::DimensionsSpec::dimension_of))]
fn dimension(alloc: Global, value: &Value) -> Result<Text, SpecError>
    ensures { Gives (λ name. name) result (dimension_of (view value.now)) }
{
    let name = match value {
        Value::String(name) => name.as_str(),
        Value::Object(_) => {
            text_type(alloc, text_or(alloc, Some(value), "type", "string")?)?;
            text_field(alloc, value, "name")?
        }
        _ => return Err(SpecError::Base(wrong_kind(alloc, "dimensions"))),
    };
    Ok(Text::from_str(alloc, not_empty(alloc, name, "name")?)?)
}

fn text_type(alloc: Global, name: &str) -> Result<(), SpecError>
    ensures { Gives (λ u. u) result (text_type name.now) }
{
    if name == "string" {
        Ok(())
    } else {
        Err(SpecError::UnsupportedDimension(Text::from_str(alloc, name)?))
    }
}
