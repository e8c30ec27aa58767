ghost use Rattle.std.specs.Prelude.{option_map};
ghost use Rattle.serde_json.specs.View.{view};
ghost use Rattle.dr_base.specs.Fields.{Gives};
ghost use Rattle.dr_spec.specs.TuningConfig.{in_range, limit, limits_of};

use crate::sections::{field_in, section};
use dr_base::{BaseError, int_value, wrong_kind};
use dr_schema::Limits;
use serde_json::Value;
use std::alloc::Global;

/// The section `tuningConfig` of a spec. Refusals: 3 `WrongKind` of the section, or of the first limit that is no whole
/// number in its range.
#[tactic(auto, unfolding(crate::specs::TuningConfig::limits_of, crate::specs::TuningConfig::limit))]
pub fn limits(alloc: Global, value: &Value) -> Result<Limits, BaseError>
    ensures { Gives (λ limits. limits) result (limits_of (view value.now)) }
{
    let section = section(alloc, value, "tuningConfig")?;
    let rows = limit(alloc, section, "maxRowsInMemory", 1000, 1_048_576)?;
    let retained = limit(alloc, section, "maxRetained", 1_048_576, 1_048_576)?;
    let commits = limit(alloc, section, "maxCommits", 4_294_967_295, 4_294_967_295)?;
    let image_bytes = limit(
        alloc,
        section,
        "maxImageBytes",
        1_073_741_824,
        1_073_741_824,
    )?;
    Ok(Limits {
        max_rows_in_memory: rows as usize,
        max_retained: retained as usize,
        max_commits: commits,
        max_image_bytes: image_bytes,
    })
}

#[tactic(auto, unfolding(crate::specs::TuningConfig::limit))]
fn limit(
    alloc: Global,
    section: Option<&Value>,
    name: &str,
    default: u64,
    greatest: u64,
) -> Result<u64, BaseError>
    ensures { Gives (λ n. n) result (limit name.now default greatest (option_map (λ v. view v.now) section.entry)) }
{
    match field_in(section, name) {
        Some(value) => in_range(alloc, int_value(alloc, value, name)?, name, greatest),
        None => Ok(default),
    }
}

fn in_range(alloc: Global, number: i64, name: &str, greatest: u64) -> Result<u64, BaseError>
    ensures { Gives (λ n. n) result (in_range name.now greatest number) }
{
    if number < 1 {
        return Err(wrong_kind(alloc, name));
    }
    let count = number as u64;
    if count > greatest {
        return Err(wrong_kind(alloc, name));
    }
    Ok(count)
}
