ghost use Rattle.std.specs.Prelude.{map, option_map};
ghost use Rattle.serde_json.specs.View.{view, members_view};
ghost use Rattle.dr_filter.specs.Refusal.{Gives};
ghost use Rattle.dr_filter.specs.Fields.{dimension_of, strict_or_not, no_unlisted, only_lexicographic, ordering_object, ordering_of};

use crate::filter_error::FilterError;
use dr_base::{Text, bool_value, first_unlisted, object, text_field};
use dr_schema::Schema;
use serde_json::{Map, Value};
use std::alloc::Global;

/// The place of the dimension that a filter reads; none where the schema has no such column. Refusals: 2 and 3 of
/// `dimension`, 61 `FilterOnMetric` with the name of a metric or of `__time`.
#[tactic(auto, unfolding(crate::specs::Fields::dimension_of))]
pub fn dimension(
    alloc: Global,
    value: &Value,
    schema: &Schema,
) -> Result<Option<usize>, FilterError>
    ensures { Gives (λ p. p) result (dimension_of schema.now (view value.now)) }
{
    let name = text_field(alloc, value, "dimension")?;
    if schema.is_no_dimension(name) {
        return Err(FilterError::FilterOnMetric(Text::from_str(alloc, name)?));
    }
    Ok(schema.dimension_place(name))
}

/// Whether a bound is strict: a truth value that may be absent, and is false then. Refusals: 3 `WrongKind` of the field.
pub fn strict(alloc: Global, value: Option<&Value>, name: &str) -> Result<bool, FilterError>
    ensures { Gives (λ b. b) result (strict_or_not name.now (option_map (λ v. view v.now) value.entry)) }
{
    match value {
        Some(value) => Ok(bool_value(alloc, value, name)?),
        None => Ok(false),
    }
}

/// The order of a bound, which is `lexicographic` where it is given: that text, or an object of that type. Refusals: 60
/// `UnknownFilter` with another text or type, 2 and 3 of `type`, 60 with another key of the object, 3 of `ordering`.
pub fn ordering(alloc: Global, value: Option<&Value>) -> Result<(), FilterError>
    ensures { Gives (λ u. u) result (ordering_of (option_map (λ v. view v.now) value.entry)) }
{
    match value {
        None => Ok(()),
        Some(Value::String(name)) => only_lexicographic(alloc, name.as_str()),
        Some(value) => ordering_object(alloc, value),
    }
}

#[tactic(auto, unfolding(crate::specs::Fields::ordering_object))]
fn ordering_object(alloc: Global, value: &Value) -> Result<(), FilterError>
    ensures { Gives (λ u. u) result (ordering_object (view value.now)) }
{
    let members = object(alloc, value, "ordering")?;
    let name = text_field(alloc, value, "type")?;
    only_lexicographic(alloc, name)?;
    no_unlisted(alloc, members, &["type"])
}

fn only_lexicographic(alloc: Global, name: &str) -> Result<(), FilterError>
    ensures { Gives (λ u. u) result (only_lexicographic name.now) }
{
    if name == "lexicographic" {
        Ok(())
    } else {
        Err(FilterError::UnknownFilter(Text::from_str(alloc, name)?))
    }
}

/// Refuses the first key that asks for something and is not listed, by 60 `UnknownFilter`.
pub fn no_unlisted(
    alloc: Global,
    members: &Map<String, Value>,
    listed: &[&str],
) -> Result<(), FilterError>
    ensures { Gives (λ u. u) result (no_unlisted (map (λ t. t.now) listed.now) (members_view members.now.entries)) }
{
    match first_unlisted(members, listed) {
        Some(key) => Err(FilterError::UnknownFilter(Text::from_str(alloc, key)?)),
        None => Ok(()),
    }
}
