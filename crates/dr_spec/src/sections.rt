ghost use Rattle.std.specs.Prelude.{◌≡◌, option_map};
ghost use Rattle.serde_json.specs.View.{view, items_view};
ghost use Rattle.dr_base.specs.Fields.{Gives};
ghost use Rattle.dr_spec.specs.Sections.{section, field_in, text_or, bool_or, items_of_field, not_empty};

use dr_base::{BaseError, bool_value, field, list_value, object, text_value, wrong_kind};
use serde_json::Value;
use std::alloc::Global;

/// The object of a field, where there is one. Refusals: 3 `WrongKind` where the field holds another value.
pub fn section<'v>(
    alloc: Global,
    value: &'v Value,
    name: &str,
) -> Result<Option<&'v Value>, BaseError>
    ensures { Gives (option_map (λ v. view v.now)) result (section name.now (view value.now)) }
{
    let Some(found) = field(value, name) else {
        return Ok(None);
    };
    object(alloc, found, name)?;
    Ok(Some(found))
}

/// The value of a field of a section; none where the section is absent too.
pub fn field_in<'v>(section: Option<&'v Value>, name: &str) -> Option<&'v Value>
    ensures { option_map (λ v. view v.now) result ≡ field_in name.now (option_map (λ v. view v.now) section.entry) }
{
    match section {
        Some(value) => field(value, name),
        None => None,
    }
}

/// The text of a field of a section, or its default. Refusals: 3 `WrongKind` where it is no text.
pub fn text_or<'v>(
    alloc: Global,
    section: Option<&'v Value>,
    name: &str,
    default: &'v str,
) -> Result<&'v str, BaseError>
    ensures { Gives (λ t. t.now) result (text_or name.now default.now (option_map (λ v. view v.now) section.entry)) }
{
    match field_in(section, name) {
        Some(value) => text_value(alloc, value, name),
        None => Ok(default),
    }
}

/// The truth value of a field of a section, or its default. Refusals: 3 `WrongKind` where it is none.
pub fn bool_or(
    alloc: Global,
    section: Option<&Value>,
    name: &str,
    default: bool,
) -> Result<bool, BaseError>
    ensures { Gives (λ b. b) result (bool_or name.now default (option_map (λ v. view v.now) section.entry)) }
{
    match field_in(section, name) {
        Some(value) => bool_value(alloc, value, name),
        None => Ok(default),
    }
}

/// The items of a field's list; an absent list has none. Refusals: 3 `WrongKind` where it is no list.
pub fn items_of_field<'v>(
    alloc: Global,
    value: &'v Value,
    name: &str,
) -> Result<&'v [Value], BaseError>
    ensures { Gives (λ vs. items_view vs.now) result (items_of_field name.now (view value.now)) }
{
    match field(value, name) {
        Some(list) => list_value(alloc, list, name),
        None => Ok(&[]),
    }
}

/// That text. Refusals: 3 `WrongKind` of that name where it is empty.
pub fn not_empty<'t>(alloc: Global, text: &'t str, name: &str) -> Result<&'t str, BaseError>
    ensures { Gives (λ t. t.now) result (not_empty name.now text.now) }
{
    if text.is_empty() {
        Err(wrong_kind(alloc, name))
    } else {
        Ok(text)
    }
}
