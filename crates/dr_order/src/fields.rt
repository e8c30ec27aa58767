ghost use Rattle.std.specs.Prelude.{map, option_map};
ghost use Rattle.serde_json.specs.View.{view, members_view};
ghost use Rattle.dr_base.specs.Fields.{Gives as GivesBase};
ghost use Rattle.dr_order.specs.Fields.{as_count, count_or_none, no_unlisted};
ghost use Rattle.dr_order.specs.Refusal.{Gives};

use crate::order_error::OrderError;
use dr_base::{BaseError, Text, first_unlisted, wrong_kind};
use serde_json::{Map, Value};
use std::alloc::Global;

/// A whole number from 0 to 2^64 - 1 that may be absent, and is 0 then. Refusals: 3 `WrongKind` of the field.
pub fn count(alloc: Global, value: Option<&Value>, name: &str) -> Result<u64, BaseError>
    ensures { GivesBase (λ n. n) result (count_or_none name.now (option_map (λ v. view v.now) value.entry)) }
{
    match value {
        Some(value) => count_of(alloc, value, name),
        None => Ok(0),
    }
}

fn count_of(alloc: Global, value: &Value, name: &str) -> Result<u64, BaseError>
    ensures { GivesBase (λ n. n) result (as_count name.now (view value.now)) }
{
    match value.as_u64() {
        Some(number) => Ok(number),
        None => Err(wrong_kind(alloc, name)),
    }
}

/// Refuses the first key that asks for something and is not listed, by 76 `Unsupported`.
pub fn no_unlisted(
    alloc: Global,
    members: &Map<String, Value>,
    listed: &[&str],
) -> Result<(), OrderError>
    ensures { Gives (λ u. u) result (no_unlisted (map (λ t. t.now) listed.now) (members_view members.now.entries)) }
{
    match first_unlisted(members, listed) {
        Some(key) => Err(OrderError::Unsupported(Text::from_str(alloc, key)?)),
        None => Ok(()),
    }
}
