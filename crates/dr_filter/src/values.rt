ghost use Rattle.std.specs.Prelude.{◌≡◌, IfOk, option_map};
ghost use Rattle.serde_json.specs.View.{view, items_view, number_view};
ghost use Rattle.dr_filter.specs.Refusal.{Gives};
ghost use Rattle.dr_filter.specs.Values.{whole_text, value_of, value_or_empty, value_or_none, distinct_values};

use crate::filter_error::FilterError;
use dr_base::{Text, wrong_kind};
use dr_dict::TextSet;
use serde_json::{Number, Value};
use std::alloc::{AllocError, Global};

/// The text that a value of a filter stands for: a text itself, a whole number in decimal, the empty text for null.
/// Refusals: 3 `WrongKind` of the field.
pub fn value_of(alloc: Global, value: &Value, name: &str) -> Result<Text, FilterError>
    ensures { Gives (λ t. t) result (value_of name.now (view value.now)) }
{
    match value {
        Value::Null => Ok(Text::from_str(alloc, "")?),
        Value::String(text) => Ok(Text::from_str(alloc, text.as_str())?),
        Value::Number(number) => match whole_text(alloc, number)? {
            Some(text) => Ok(text),
            None => Err(FilterError::Base(wrong_kind(alloc, name))),
        },
        _ => Err(FilterError::Base(wrong_kind(alloc, name))),
    }
}

/// The same of a field that may be absent, and then stands for the empty text.
pub fn value_or_empty(alloc: Global, value: Option<&Value>, name: &str) -> Result<Text, FilterError>
    ensures { Gives (λ t. t) result (value_or_empty name.now (option_map (λ v. view v.now) value.entry)) }
{
    match value {
        Some(value) => value_of(alloc, value, name),
        None => Ok(Text::from_str(alloc, "")?),
    }
}

/// The same of a field that may be absent, and then stands for no text.
pub fn value_or_none(
    alloc: Global,
    value: Option<&Value>,
    name: &str,
) -> Result<Option<Text>, FilterError>
    ensures { Gives (λ t. t) result (value_or_none name.now (option_map (λ v. view v.now) value.entry)) }
{
    match value {
        Some(value) => Ok(Some(value_of(alloc, value, name)?)),
        None => Ok(None),
    }
}

/// The texts that the items of a list stand for, each once.
pub fn distinct_values(alloc: Global, values: &[Value]) -> Result<TextSet, FilterError>
    ensures { Gives (λ t. t) result (distinct_values (items_view values.now)) }
{
    let mut texts = TextSet::new(alloc);
    for value in values {
        let text = value_of(alloc, value, "values")?;
        texts.add(&text)?;
    }
    Ok(texts)
}

fn whole_text(alloc: Global, number: &Number) -> Result<Option<Text>, AllocError>
    ensures { IfOk result (λ text. text ≡ whole_text (number_view number.now)) }
{
    let text = if let Some(whole) = number.as_u64() {
        whole.to_string(alloc)?
    } else if let Some(negative) = number.as_i64() {
        negative.to_string(alloc)?
    } else {
        return Ok(None);
    };
    Ok(Some(Text::from_string(alloc, text)?))
}
