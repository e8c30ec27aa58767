ghost use Rattle.std.specs.Prelude.{◌≡◌, ◌∷◌, [], Err, codes};
ghost use Rattle.std.specs.Str.{str_eq_ignore_ascii_case};
ghost use Rattle.serde_json.specs.View.{view, members_view};
ghost use Rattle.dr_base.specs.Unlisted.{unlisted};
ghost use Rattle.dr_gran.specs.declared.gran.Gran.{Gran};
ghost use Rattle.dr_gran.specs.declared.gran_error.GranError.TheVariants.{UnsupportedGranularity};
ghost use Rattle.dr_gran.specs.Name.{name_of, named_among};
ghost use Rattle.dr_gran.specs.Reading.{gran_of, by_type, or_unsupported};
ghost use Rattle.dr_gran.specs.Refusal.{Gives};

use crate::gran::Gran;
use crate::gran_error::GranError;
use dr_base::{Text, first_unlisted};
use serde_json::{Map, Value};
use std::alloc::Global;

const EVERY: [Gran; 16] = [
    Gran::AllTime,
    Gran::Millisecond,
    Gran::Second,
    Gran::Minute,
    Gran::FiveMinute,
    Gran::TenMinute,
    Gran::FifteenMinute,
    Gran::ThirtyMinute,
    Gran::Hour,
    Gran::SixHour,
    Gran::EightHour,
    Gran::Day,
    Gran::Week,
    Gran::Month,
    Gran::Quarter,
    Gran::Year,
];

impl Gran {
    /// The granularity that a value names: a text, in any ASCII case, or the object `{"type":"all"}` or `{"type":"none"}`,
    /// whose other keys are passed over where they hold null, false, an empty list or an empty object.
    ///
    /// Refusals: 22 `UnsupportedGranularity` with the text as it was written, or with that of `type`, or with
    /// `granularity` where there is neither. It takes time by the bytes of the name and by the keys of the object, and memory for a
    /// name that is refused alone.
    pub fn parse(alloc: Global, value: &Value) -> Result<Gran, GranError>
        ensures { Gives (λ g. g) result (gran_of (view value.now)) }
    {
        match value {
            Value::String(name) => named(alloc, &EVERY, name.as_str()),
            Value::Object(members) => match value.get("type") {
                Some(Value::String(name)) => typed(alloc, name.as_str(), members),
                _ => Err(unsupported(alloc, "granularity")),
            },
            _ => Err(unsupported(alloc, "granularity")),
        }
    }

    /// The name of the granularity, in lower case.
    pub fn name(self) -> &'static str
        ensures { result.now ≡ name_of self }
    {
        match self {
            Gran::AllTime => "all",
            Gran::Millisecond => "none",
            Gran::Second => "second",
            Gran::Minute => "minute",
            Gran::FiveMinute => "five_minute",
            Gran::TenMinute => "ten_minute",
            Gran::FifteenMinute => "fifteen_minute",
            Gran::ThirtyMinute => "thirty_minute",
            Gran::Hour => "hour",
            Gran::SixHour => "six_hour",
            Gran::EightHour => "eight_hour",
            Gran::Day => "day",
            Gran::Week => "week",
            Gran::Month => "month",
            Gran::Quarter => "quarter",
            Gran::Year => "year",
        }
    }
}

fn typed(alloc: Global, name: &str, members: &Map<String, Value>) -> Result<Gran, GranError>
    ensures { Gives (λ g. g) result (by_type name.now (unlisted (codes "type" ∷ []) (members_view members.now.entries))) }
{
    if first_unlisted(members, &["type"]).is_some() {
        return Err(unsupported(alloc, name));
    }
    named(alloc, &[Gran::AllTime, Gran::Millisecond], name)
}

/// The one of some granularities that has this name, or 22 of the name.
fn named(alloc: Global, grans: &[Gran], name: &str) -> Result<Gran, GranError>
    ensures { Gives (λ g. g) result (or_unsupported name.now (named_among grans.now name.now)) }
{
    match among(grans, name) {
        Some(gran) => Ok(gran),
        None => Err(unsupported(alloc, name)),
    }
}

/// The one of some granularities that has this name, in any ASCII case.
fn among(grans: &[Gran], name: &str) -> Option<Gran>
    ensures { result ≡ named_among grans.now name.now }
{
    grans.iter().copied().find(|gran| is_named(*gran, name))
}

fn is_named(gran: Gran, name: &str) -> bool
    ensures { result ≡ str_eq_ignore_ascii_case name.now (name_of gran) }
{
    name.eq_ignore_ascii_case(gran.name())
}

/// 22 of that name, or 0 where there is no memory for the name.
fn unsupported(alloc: Global, name: &str) -> GranError
    ensures { Gives (λ (g : Gran). g) (Err result) (Err (UnsupportedGranularity name.now)) }
{
    match Text::from_str(alloc, name) {
        Ok(name) => GranError::UnsupportedGranularity(name),
        Err(_) => GranError::NoMemory,
    }
}
