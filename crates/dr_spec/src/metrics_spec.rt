ghost use Rattle.serde_json.specs.View.{view, items_view};
ghost use Rattle.dr_spec.specs.Refusal.{Gives};
ghost use Rattle.dr_base.specs.Each.{each};
ghost use Rattle.dr_spec.specs.MetricsSpec.{kind_of, input_of, metric_of, metrics_of};

use crate::leniency::only_listed;
use crate::sections::{items_of_field, not_empty};
use crate::spec_error::SpecError;
use dr_agg::Kind;
use dr_base::{Text, object, text_field};
use dr_schema::{Metric, Metrics};
use serde_json::Value;
use std::alloc::Global;

/// The metric columns of a data schema. Refusals: 3 `WrongKind`, and those of each metric.
#[tactic(auto, unfolding(crate::specs::MetricsSpec::metrics_of))]
pub fn metrics(alloc: Global, value: &Value) -> Result<Metrics, SpecError>
    ensures { Gives (λ metrics. metrics) result (metrics_of (view value.now)) }
{
    let items = items_of_field(alloc, value, "metricsSpec")?;
    columns(alloc, items)
}

fn columns(alloc: Global, items: &[Value]) -> Result<Metrics, SpecError>
    ensures { Gives (λ metrics. metrics) result (each metric_of (items_view items.now)) }
{
    let mut metrics = Metrics::new(alloc);
    for item in items {
        metrics.push(metric(alloc, item)?)?;
    }
    Ok(metrics)
}

/// One metric column. Refusals: 2 `Missing`, 3 `WrongKind`, 21 `UnsupportedMetric` of its type, 26 `Unsupported` of a key
/// that is not listed.
#[tactic(auto, unfolding(crate::specs::MetricsSpec::metric_of, dr_base::specs::Unlisted::unlisted))]
fn metric(alloc: Global, value: &Value) -> Result<Metric, SpecError>
    ensures { Gives (λ metric. metric) result (metric_of (view value.now)) }
{
    object(alloc, value, "metricsSpec")?;
    let kind = kind(alloc, text_field(alloc, value, "type")?)?;
    let name = not_empty(alloc, text_field(alloc, value, "name")?, "name")?;
    let field = input(alloc, kind, value)?;
    only_listed(alloc, value, &["type", "name", "fieldName"])?;
    Ok(Metric {
        name: Text::from_str(alloc, name)?,
        kind,
        field,
    })
}

#[tactic(auto, unfolding(crate::specs::MetricsSpec::kind_of))]
fn kind(alloc: Global, name: &str) -> Result<Kind, SpecError>
    ensures { Gives (λ kind. kind) result (kind_of name.now) }
{
    match name {
        "count" => Ok(Kind::Count),
        "longSum" => Ok(Kind::LongSum),
        "longMin" => Ok(Kind::LongMin),
        "longMax" => Ok(Kind::LongMax),
        _ => Err(SpecError::UnsupportedMetric(Text::from_str(alloc, name)?)),
    }
}

/// The field that a metric reads; a count reads none, whatever its `fieldName` is.
fn input(alloc: Global, kind: Kind, value: &Value) -> Result<Option<Text>, SpecError>
    ensures { Gives (λ field. field) result (input_of kind (view value.now)) }
{
    match kind {
        Kind::Count => Ok(None),
        Kind::LongSum | Kind::LongMin | Kind::LongMax => {
            let name = text_field(alloc, value, "fieldName")?;
            Ok(Some(Text::from_str(alloc, name)?))
        }
    }
}
