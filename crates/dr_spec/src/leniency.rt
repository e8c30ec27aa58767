ghost use Rattle.std.specs.Prelude.{map, option_map};
ghost use Rattle.serde_json.specs.View.{view};
ghost use Rattle.dr_spec.specs.Refusal.{Gives};
ghost use Rattle.dr_spec.specs.Leniency.{only_listed, only_listed_in};

use crate::spec_error::SpecError;
use dr_base::{Text, first_unlisted};
use serde_json::Value;
use std::alloc::Global;

/// Each key of the object is listed, or its value asks for nothing. Refusals: 26 `Unsupported` of the first key, in
/// ascending byte order, that is neither.
#[tactic(auto, unfolding(dr_base::specs::Unlisted::unlisted))]
pub fn only_listed(alloc: Global, value: &Value, listed: &[&str]) -> Result<(), SpecError>
    ensures { Gives (λ u. u) result (only_listed (map (λ t. t.now) listed.now) (view value.now)) }
{
    let Value::Object(members) = value else {
        return Ok(());
    };
    match first_unlisted(members, listed) {
        Some(key) => Err(SpecError::Unsupported(Text::from_str(alloc, key)?)),
        None => Ok(()),
    }
}

/// The same of a section, which may be absent.
pub fn only_listed_in(
    alloc: Global,
    section: Option<&Value>,
    listed: &[&str],
) -> Result<(), SpecError>
    ensures { Gives (λ u. u) result (only_listed_in (map (λ t. t.now) listed.now) (option_map (λ v. view v.now) section.entry)) }
{
    match section {
        Some(value) => only_listed(alloc, value, listed),
        None => Ok(()),
    }
}
