ghost use Rattle.std.specs.Prelude.{◌≡◌, map, option_map};
ghost use Rattle.serde_json.specs.View.{view, members_view};
ghost use Rattle.dr_ask.specs.Fields.{truth_or_false, as_limit, as_whole, some_limit, limit_or_none, only_text, no_unlisted};
ghost use Rattle.dr_ask.specs.Refusal.{Gives};

use crate::query_error::QueryError;
use dr_base::{Text, bool_value, first_unlisted, wrong_kind};
use serde_json::{Map, Value};
use std::alloc::Global;

/// A truth value that may be absent, and is false then. Refusals: 3 `WrongKind` of the field.
pub fn truth(alloc: Global, value: Option<&Value>, name: &str) -> Result<bool, QueryError>
    ensures { Gives (λ b. b) result (truth_or_false name.now (option_map (λ v. view v.now) value.entry)) }
{
    match value {
        Some(value) => Ok(bool_value(alloc, value, name)?),
        None => Ok(false),
    }
}

/// A limit: a whole number from 0 to 2^64 - 1 that may be absent. A limit of 0 is none. Refusals: 3 `WrongKind` of the field.
pub fn limit(alloc: Global, value: Option<&Value>, name: &str) -> Result<Option<u64>, QueryError>
    ensures { Gives (λ n. n) result (limit_or_none name.now (option_map (λ v. view v.now) value.entry)) }
{
    match value {
        Some(value) => limit_of(alloc, value, name),
        None => Ok(None),
    }
}

fn limit_of(alloc: Global, value: &Value, name: &str) -> Result<Option<u64>, QueryError>
    ensures { Gives (λ n. n) result (as_limit name.now (view value.now)) }
{
    match value.as_u64() {
        Some(number) => Ok(some_limit(number)),
        None => Err(QueryError::Base(wrong_kind(alloc, name))),
    }
}

fn some_limit(number: u64) -> Option<u64>
    ensures { result ≡ some_limit number }
{
    if number == 0 { None } else { Some(number) }
}

/// The whole number from 0 to 2^64 - 1 that the value is. Refusals: 3 `WrongKind` of that name where it is none.
pub fn whole(alloc: Global, value: &Value, name: &str) -> Result<u64, QueryError>
    ensures { Gives (λ n. n) result (as_whole name.now (view value.now)) }
{
    match value.as_u64() {
        Some(number) => Ok(number),
        None => Err(QueryError::Base(wrong_kind(alloc, name))),
    }
}

/// Refuses each text but one, by 76 `Unsupported` with it.
pub fn only_text(alloc: Global, text: &str, only: &str) -> Result<(), QueryError>
    ensures { Gives (λ u. u) result (only_text only.now text.now) }
{
    if text == only {
        Ok(())
    } else {
        Err(QueryError::Unsupported(Text::from_str(alloc, text)?))
    }
}

/// Refuses the first key that asks for something and is not listed, by 76 `Unsupported`.
pub fn no_unlisted(
    alloc: Global,
    members: &Map<String, Value>,
    listed: &[&str],
) -> Result<(), QueryError>
    ensures { Gives (λ u. u) result (no_unlisted (map (λ t. t.now) listed.now) (members_view members.now.entries)) }
{
    match first_unlisted(members, listed) {
        Some(key) => Err(QueryError::Unsupported(Text::from_str(alloc, key)?)),
        None => Ok(()),
    }
}
