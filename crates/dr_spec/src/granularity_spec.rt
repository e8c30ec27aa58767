ghost use Rattle.std.specs.Prelude.{◌≡◌, option_map};
ghost use Rattle.std.specs.Str.{str_eq_ignore_ascii_case};
ghost use Rattle.serde_json.specs.View.{view};
ghost use Rattle.dr_schema.specs.WellFormed.{is_chunk_length};
ghost use Rattle.dr_spec.specs.Refusal.{Gives};
ghost use Rattle.dr_spec.specs.GranularitySpec.{text_of, written_name, if_supported, segment_granularity_of, query_granularity_of, uniform, granularity_of, nested};

use crate::sections::{bool_or, field_in, section, text_or};
use crate::spec_error::SpecError;
use dr_base::{Text, field};
use dr_gran::{Gran, GranError};
use serde_json::Value;
use std::alloc::Global;

/// How long chunks are, what times are truncated to, and whether rows are rolled up.
#[derive(Clone, Copy)]
pub struct GranularitySpec {
    pub segment: Gran,
    pub query: Gran,
    pub rollup: bool,
}

/// The section `granularitySpec` of a data schema. Refusals: 3 `WrongKind`, 26 `Unsupported` of a type other than
/// `uniform`, and 22 `UnsupportedGranularity` of what is no granularity, of `all` and `none` as `segmentGranularity`, and of
/// `all` as `queryGranularity`.
#[tactic(auto, unfolding(crate::specs::GranularitySpec::granularity_of))]
pub fn granularity(alloc: Global, value: &Value) -> Result<GranularitySpec, SpecError>
    ensures { Gives (λ g. g) result (granularity_of (view value.now)) }
{
    let section = section(alloc, value, "granularitySpec")?;
    uniform(alloc, text_or(alloc, section, "type", "uniform")?)?;
    let segment = segment_granularity(alloc, field_in(section, "segmentGranularity"))?;
    let query = query_granularity(alloc, field_in(section, "queryGranularity"))?;
    let rollup = bool_or(alloc, section, "rollup", true)?;
    Ok(GranularitySpec {
        segment,
        query,
        rollup,
    })
}

/// Each bucket of the query granularity lies in one chunk. Refusals: 23 `NotNested`.
pub fn nested(granularity: GranularitySpec) -> Result<(), SpecError>
    ensures { Gives (λ u. u) result (nested granularity) }
{
    if granularity.query.nests_in(granularity.segment) {
        Ok(())
    } else {
        Err(SpecError::NotNested)
    }
}

fn uniform(alloc: Global, name: &str) -> Result<(), SpecError>
    ensures { Gives (λ u. u) result (uniform name.now) }
{
    if equals_in_any_case(name, "uniform") {
        Ok(())
    } else {
        Err(SpecError::Unsupported(Text::from_str(alloc, name)?))
    }
}

fn equals_in_any_case(text: &str, word: &str) -> bool
    ensures { result ≡ str_eq_ignore_ascii_case text.now word.now }
{
    text.eq_ignore_ascii_case(word)
}

#[tactic(auto, unfolding(crate::specs::GranularitySpec::segment_granularity_of))]
fn segment_granularity(alloc: Global, value: Option<&Value>) -> Result<Gran, SpecError>
    ensures { Gives (λ g. g) result (segment_granularity_of (option_map (λ v. view v.now) value.entry)) }
{
    let Some(value) = value else {
        return Ok(Gran::Day);
    };
    let gran = Gran::parse(alloc, value)?;
    if_supported(alloc, is_chunk_length(gran), gran, value)
}

#[tactic(auto, unfolding(crate::specs::GranularitySpec::query_granularity_of))]
fn query_granularity(alloc: Global, value: Option<&Value>) -> Result<Gran, SpecError>
    ensures { Gives (λ g. g) result (query_granularity_of (option_map (λ v. view v.now) value.entry)) }
{
    let Some(value) = value else {
        return Ok(Gran::Millisecond);
    };
    let gran = Gran::parse(alloc, value)?;
    if_supported(alloc, !gran.is_all(), gran, value)
}

fn is_chunk_length(gran: Gran) -> bool
    ensures { result ≡ is_chunk_length gran }
{
    !matches!(gran, Gran::AllTime | Gran::Millisecond)
}

fn if_supported(
    alloc: Global,
    is_supported: bool,
    gran: Gran,
    value: &Value,
) -> Result<Gran, SpecError>
    ensures { Gives (λ g. g) result (if_supported is_supported gran (view value.now)) }
{
    if is_supported {
        return Ok(gran);
    }
    let name = Text::from_str(alloc, written_name(value))?;
    Err(SpecError::Granularity(GranError::UnsupportedGranularity(name)))
}

fn written_name(value: &Value) -> &str
    ensures { result.now ≡ written_name (view value.now) }
{
    match value {
        Value::String(name) => name.as_str(),
        Value::Object(_) => text_of(field(value, "type")),
        _ => "",
    }
}

fn text_of(value: Option<&Value>) -> &str
    ensures { result.now ≡ text_of (option_map (λ v. view v.now) value.entry) }
{
    match value {
        Some(Value::String(text)) => text.as_str(),
        _ => "",
    }
}
