ghost use Rattle.std.specs.Prelude.{◌≡◌, option_map};
ghost use Rattle.serde_json.specs.View.{view};
ghost use Rattle.dr_ask.specs.ContextOf.{skip_named, skip_in, skip_of, is_off, only_false, not_asked, context_in, context_of};
ghost use Rattle.dr_ask.specs.Refusal.{Gives};

use crate::query_error::QueryError;
use dr_base::{Text, field, object, wrong_kind};
use serde_json::Value;
use std::alloc::Global;

/// Whether the context of a query asks to leave out empty buckets; one that is absent doesn't. Of its keys `skipEmptyBuckets`
/// is read, and all that aren't told here are passed over. Refusals: 3 `WrongKind` of `context`; 3 of `skipEmptyBuckets` for
/// all but true, false and the texts `true` and `false`; 76 `Unsupported` with `grandTotal`, then with `sortByDimsFirst`,
/// unless they are null or false.
pub fn skips_empty_buckets(alloc: Global, value: Option<&Value>) -> Result<bool, QueryError>
    ensures { Gives (λ b. b) result (context_of (option_map (λ v. view v.now) value.entry)) }
{
    match value {
        Some(value) => context(alloc, value),
        None => Ok(false),
    }
}

#[tactic(auto, unfolding(crate::specs::ContextOf::context_in))]
fn context(alloc: Global, value: &Value) -> Result<bool, QueryError>
    ensures { Gives (λ b. b) result (context_in (view value.now)) }
{
    object(alloc, value, "context")?;
    let skips = skips(alloc, field(value, "skipEmptyBuckets"))?;
    not_asked(alloc, field(value, "grandTotal"), "grandTotal")?;
    not_asked(alloc, field(value, "sortByDimsFirst"), "sortByDimsFirst")?;
    Ok(skips)
}

fn skips(alloc: Global, value: Option<&Value>) -> Result<bool, QueryError>
    ensures { Gives (λ b. b) result (skip_of (option_map (λ v. view v.now) value.entry)) }
{
    match value {
        Some(value) => skip_in(alloc, value),
        None => Ok(false),
    }
}

fn skip_in(alloc: Global, value: &Value) -> Result<bool, QueryError>
    ensures { Gives (λ b. b) result (skip_in (view value.now)) }
{
    match value {
        Value::Bool(truth) => Ok(*truth),
        Value::String(text) => skip_named(alloc, text.as_str()),
        _ => Err(QueryError::Base(wrong_kind(alloc, "skipEmptyBuckets"))),
    }
}

fn skip_named(alloc: Global, text: &str) -> Result<bool, QueryError>
    ensures { Gives (λ b. b) result (skip_named text.now) }
{
    if text == "true" {
        Ok(true)
    } else if text == "false" {
        Ok(false)
    } else {
        Err(QueryError::Base(wrong_kind(alloc, "skipEmptyBuckets")))
    }
}

/// Refuses a key of the context that asks for something, by 76 `Unsupported`.
fn not_asked(alloc: Global, value: Option<&Value>, name: &str) -> Result<(), QueryError>
    ensures { Gives (λ u. u) result (not_asked name.now (option_map (λ v. view v.now) value.entry)) }
{
    match value {
        Some(value) => only_false(alloc, value, name),
        None => Ok(()),
    }
}

fn only_false(alloc: Global, value: &Value, name: &str) -> Result<(), QueryError>
    ensures { Gives (λ u. u) result (only_false name.now (view value.now)) }
{
    if is_off(value) {
        Ok(())
    } else {
        Err(QueryError::Unsupported(Text::from_str(alloc, name)?))
    }
}

fn is_off(value: &Value) -> bool
    ensures { result ≡ is_off (view value.now) }
{
    match value {
        Value::Null => true,
        Value::Bool(truth) => !*truth,
        _ => false,
    }
}
