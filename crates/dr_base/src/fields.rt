ghost use Rattle.std.specs.Prelude.{◌≡◌, option_map};
ghost use Rattle.serde_json.specs.View.{view, items_view, members_view};
ghost use Rattle.dr_base.specs.declared.base_error.BaseError.TheVariants.{Missing, WrongKind};
ghost use Rattle.dr_base.specs.Fields.{Gives, IsRefusal, field, required, as_text, as_list, as_bool, as_int, as_object, text_field, int_field, bool_field, list_field};

use crate::base_error::BaseError;
use crate::text::Text;
use serde_json::{Map, Value};
use std::alloc::Global;

/// 2 `Missing` of that name, or 0 where there is no memory for the name, which is copied.
pub fn missing(alloc: Global, name: &str) -> BaseError
    ensures { IsRefusal (Missing name.now) result }
{
    match Text::from_str(alloc, name) {
        Ok(name) => BaseError::Missing(name),
        Err(_) => BaseError::NoMemory,
    }
}

/// 3 `WrongKind` of that name, or 0 where there is no memory for the name, which is copied.
pub fn wrong_kind(alloc: Global, name: &str) -> BaseError
    ensures { IsRefusal (WrongKind name.now) result }
{
    match Text::from_str(alloc, name) {
        Ok(name) => BaseError::WrongKind(name),
        Err(_) => BaseError::NoMemory,
    }
}

/// The value of a field of an object; none where the field is absent or null, or where the value is no object. It is found
/// among the sorted members by halving.
pub fn field<'v>(value: &'v Value, name: &str) -> Option<&'v Value>
    ensures { option_map (λ v. view v.now) result ≡ field name.now (view value.now) }
{
    match value.get(name) {
        Some(Value::Null) => None,
        found => found,
    }
}

/// The value of a field. Refusals: 2 `Missing` of the field where it is absent or null.
pub fn required<'v>(alloc: Global, value: &'v Value, name: &str) -> Result<&'v Value, BaseError>
    ensures { Gives (λ v. view v.now) result (required name.now (field name.now (view value.now))) }
{
    match field(value, name) {
        Some(found) => Ok(found),
        None => Err(missing(alloc, name)),
    }
}

/// The text that the value is. Refusals: 3 `WrongKind` of that name where it is none.
pub fn text_value<'v>(alloc: Global, value: &'v Value, name: &str) -> Result<&'v str, BaseError>
    ensures { Gives (λ t. t.now) result (as_text name.now (view value.now)) }
{
    match value {
        Value::String(text) => Ok(text.as_str()),
        _ => Err(wrong_kind(alloc, name)),
    }
}

/// The whole number that the value is. Refusals: 3 `WrongKind` of that name where it is none, or lies outside 64 bits
/// with a sign; `1.0` and `1e3` are no whole numbers, and neither is `-0`.
pub fn int_value(alloc: Global, value: &Value, name: &str) -> Result<i64, BaseError>
    ensures { Gives (λ n. n) result (as_int name.now (view value.now)) }
{
    match value.as_i64() {
        Some(number) => Ok(number),
        None => Err(wrong_kind(alloc, name)),
    }
}

/// The truth value that the value is. Refusals: 3 `WrongKind` of that name where it is none.
pub fn bool_value(alloc: Global, value: &Value, name: &str) -> Result<bool, BaseError>
    ensures { Gives (λ b. b) result (as_bool name.now (view value.now)) }
{
    match value {
        Value::Bool(truth) => Ok(*truth),
        _ => Err(wrong_kind(alloc, name)),
    }
}

/// The items of the list that the value is. Refusals: 3 `WrongKind` of that name where it is none.
pub fn list_value<'v>(alloc: Global, value: &'v Value, name: &str) -> Result<&'v [Value], BaseError>
    ensures { Gives (λ vs. items_view vs.now) result (as_list name.now (view value.now)) }
{
    match value {
        Value::Array(items) => Ok(items.as_slice()),
        _ => Err(wrong_kind(alloc, name)),
    }
}

/// The members of the object that the value is. Refusals: 3 `WrongKind` of that name where it is none.
pub fn object<'v>(
    alloc: Global,
    value: &'v Value,
    name: &str,
) -> Result<&'v Map<String, Value>, BaseError>
    ensures { Gives (λ m. members_view m.now.entries) result (as_object name.now (view value.now)) }
{
    match value {
        Value::Object(members) => Ok(members),
        _ => Err(wrong_kind(alloc, name)),
    }
}

/// The text of a field. Refusals: 2 `Missing` where the field is absent or null, 3 `WrongKind` where it is no text.
pub fn text_field<'v>(alloc: Global, value: &'v Value, name: &str) -> Result<&'v str, BaseError>
    ensures { Gives (λ t. t.now) result (text_field name.now (view value.now)) }
{
    text_value(alloc, required(alloc, value, name)?, name)
}

/// The whole number of a field. Refusals: 2 `Missing` where the field is absent or null, 3 `WrongKind` as [`int_value`].
pub fn int_field(alloc: Global, value: &Value, name: &str) -> Result<i64, BaseError>
    ensures { Gives (λ n. n) result (int_field name.now (view value.now)) }
{
    int_value(alloc, required(alloc, value, name)?, name)
}

/// The truth value of a field. Refusals: 2 `Missing` where the field is absent or null, 3 `WrongKind` where it is none.
pub fn bool_field(alloc: Global, value: &Value, name: &str) -> Result<bool, BaseError>
    ensures { Gives (λ b. b) result (bool_field name.now (view value.now)) }
{
    bool_value(alloc, required(alloc, value, name)?, name)
}

/// The items of a field's list. Refusals: 2 `Missing` where the field is absent or null, 3 `WrongKind` where it is no
/// list.
pub fn list_field<'v>(alloc: Global, value: &'v Value, name: &str) -> Result<&'v [Value], BaseError>
    ensures { Gives (λ vs. items_view vs.now) result (list_field name.now (view value.now)) }
{
    list_value(alloc, required(alloc, value, name)?, name)
}
