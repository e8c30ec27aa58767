ghost use Rattle.serde_json.specs.View.{view};
ghost use Rattle.dr_spec.specs.Refusal.{Gives};
ghost use Rattle.dr_spec.specs.TimestampSpec.{format_of, timestamp_of};

use crate::sections::{section, text_or};
use crate::spec_error::SpecError;
use dr_base::Text;
use dr_schema::TimeFormat;
use serde_json::Value;
use std::alloc::Global;

/// Where the time of an event stands, and how it is written.
#[derive(Drop)]
pub struct TimestampSpec {
    pub column: Text,
    pub format: TimeFormat,
}

/// The section `timestampSpec` of a data schema. Refusals: 3 `WrongKind`, and 26 `Unsupported` of a format that is none of
/// `iso`, `millis`, `posix` and `auto`.
#[tactic(auto, unfolding(crate::specs::TimestampSpec::timestamp_of))]
pub fn timestamp(alloc: Global, value: &Value) -> Result<TimestampSpec, SpecError>
    ensures { Gives (λ t. t) result (timestamp_of (view value.now)) }
{
    let section = section(alloc, value, "timestampSpec")?;
    let column = text_or(alloc, section, "column", "timestamp")?;
    let name = text_or(alloc, section, "format", "auto")?;
    let format = time_format(alloc, name)?;
    Ok(TimestampSpec {
        column: Text::from_str(alloc, column)?,
        format,
    })
}

#[tactic(auto, unfolding(crate::specs::TimestampSpec::format_of))]
fn time_format(alloc: Global, name: &str) -> Result<TimeFormat, SpecError>
    ensures { Gives (λ f. f) result (format_of name.now) }
{
    match name {
        "iso" => Ok(TimeFormat::Iso),
        "millis" => Ok(TimeFormat::Millis),
        "posix" => Ok(TimeFormat::Posix),
        "auto" => Ok(TimeFormat::Auto),
        _ => Err(SpecError::Unsupported(Text::from_str(alloc, name)?)),
    }
}
