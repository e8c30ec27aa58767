ghost use Rattle.std.specs.Prelude.{◌≡◌, map, option_map};
ghost use Rattle.serde_json.specs.View.{view, members_view};
ghost use Rattle.dr_having.specs.LeafOf.{comparison_of, named, value_text, aggregation_of, dimension_of, no_unlisted, place_of};
ghost use Rattle.dr_having.specs.Refusal.{Gives};

use crate::comparison::Comparison;
use crate::dimension_value::DimensionValue;
use crate::group_value::GroupValue;
use crate::having_error::HavingError;
use dr_base::{Text, field, first_unlisted, int_field, text_field, text_value};
use dr_outputs::OutputNames;
use serde_json::{Map, Value};
use std::alloc::Global;

/// How a type compares the value of an aggregation; none for a type that doesn't.
pub fn comparison_of(kind: &str) -> Option<Comparison>
    ensures { result ≡ comparison_of kind.now }
{
    if kind == "equalTo" {
        Some(Comparison::Equal)
    } else if kind == "greaterThan" {
        Some(Comparison::Greater)
    } else if kind == "lessThan" {
        Some(Comparison::Less)
    } else {
        None
    }
}

/// A condition on the value of an aggregation. Refusals: 2 and 3 of `aggregation`, 77 `UnknownHavingColumn` with it where no
/// aggregation has that name, 2 and 3 of `value`, 76 `Unsupported` with another key.
#[tactic(auto, unfolding(crate::specs::LeafOf::aggregation_of, dr_base::specs::Unlisted::unlisted))]
pub fn aggregation(
    alloc: Global,
    value: &Value,
    members: &Map<String, Value>,
    comparison: Comparison,
    names: &OutputNames<'_>,
) -> Result<GroupValue, HavingError>
    ensures { Gives (λ c. c) result (aggregation_of comparison names.now (view value.now) (members_view members.now.entries)) }
{
    let name = text_field(alloc, value, "aggregation")?;
    let place = named(alloc, names, name)?;
    let number = int_field(alloc, value, "value")?;
    no_unlisted(alloc, members, &["type", "aggregation", "value"])?;
    Ok(GroupValue {
        place,
        comparison,
        value: number,
    })
}

/// A condition on the value of a dimension. Refusals: 2 and 3 of `dimension`, 77 `UnknownHavingColumn` with it where no
/// dimension has that name, 3 of `value`, 76 `Unsupported` with another key.
#[tactic(auto, unfolding(crate::specs::LeafOf::dimension_of, dr_base::specs::Unlisted::unlisted))]
pub fn dimension(
    alloc: Global,
    value: &Value,
    members: &Map<String, Value>,
    names: &OutputNames<'_>,
) -> Result<DimensionValue, HavingError>
    ensures { Gives (λ c. c) result (dimension_of names.now (view value.now) (members_view members.now.entries)) }
{
    let name = text_field(alloc, value, "dimension")?;
    let place = named(alloc, names, name)?;
    let text = value_text(alloc, field(value, "value"))?;
    no_unlisted(alloc, members, &["type", "dimension", "value"])?;
    Ok(DimensionValue { place, value: text })
}

/// The text of `value`, the empty one where it is absent.
fn value_text(alloc: Global, value: Option<&Value>) -> Result<Text, HavingError>
    ensures { Gives (λ t. t) result (value_text (option_map (λ v. view v.now) value.entry)) }
{
    match value {
        Some(value) => {
            let text = text_value(alloc, value, "value")?;
            Ok(Text::from_str(alloc, text)?)
        }
        None => Ok(Text::from_str(alloc, "")?),
    }
}

/// The place of a name among the outputs. Refusals: 77 `UnknownHavingColumn` with it where it isn't there.
fn named(alloc: Global, names: &OutputNames<'_>, name: &str) -> Result<usize, HavingError>
    ensures { Gives (λ p. p) result (named names.now name.now) }
{
    match names.place_of(name) {
        Some(place) => Ok(place),
        None => Err(HavingError::UnknownHavingColumn(Text::from_str(alloc, name)?)),
    }
}

/// Refuses the first key that asks for something and is not listed, by 76 `Unsupported`.
pub fn no_unlisted(
    alloc: Global,
    members: &Map<String, Value>,
    listed: &[&str],
) -> Result<(), HavingError>
    ensures { Gives (λ u. u) result (no_unlisted (map (λ t. t.now) listed.now) (members_view members.now.entries)) }
{
    match first_unlisted(members, listed) {
        Some(key) => Err(HavingError::Unsupported(Text::from_str(alloc, key)?)),
        None => Ok(()),
    }
}
