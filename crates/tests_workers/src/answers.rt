ghost use Rattle.std.specs.Prelude.{IfOk};
ghost use Rattle.std.specs.Box.{box_value};
ghost use Rattle.dr_ask.specs.Asked.{asked};
ghost use Rattle.dr_ask.specs.MadeFor.{MadeFor};

use crate::queries::query_of;
use dr_ask::Query;
use dr_events::read_event;
use dr_spec::IngestSpec;
use dr_timeline::{Snapshot, Timeline};
use std::alloc::Global;
use std::test::Fail;

const SPEC: &str =
    r#"{"dataSchema":{"dataSource":"w","timestampSpec":{"column":"t","format":"iso"},"dimensionsSpec":{"dimensions":["page","lang"]},"metricsSpec":[{"type":"count","name":"n"},{"type":"longSum","name":"added","fieldName":"a"},{"type":"longMin","name":"lo","fieldName":"a"},{"type":"longMax","name":"hi","fieldName":"a"}],"granularitySpec":{"segmentGranularity":"day","queryGranularity":"hour"}}}"#;

/// The start of the day of the events.
const DAY: i64 = 1_704_067_200_000;

/// A snapshot of events, of which so many are sealed, each in a range of its own, and a query for it.
pub fn pinned(
    alloc: Global,
    events: &[&str],
    sealed: usize,
    text: &str,
) -> Result<(Snapshot, Box<Query>), Fail>
    ensures { IfOk result (λ p. MadeFor p.0.schema (asked (box_value p.1))) }
{
    let mut timeline = filled(alloc, events, sealed)?;
    let query = query_of(alloc, timeline.spec().schema(), text)?;
    Ok((timeline.pin()?, query))
}

/// A timeline of events, of which so many are sealed, each in a range of its own.
fn filled(alloc: Global, events: &[&str], sealed: usize) -> Result<Timeline, Fail> {
    let mut timeline = new_timeline(alloc)?;
    for (i, event) in events.iter().enumerate() {
        accept(alloc, &mut timeline, event)?;
        if i < sealed {
            timeline.seal(DAY)?;
        }
    }
    Ok(timeline)
}

/// A timeline without events.
fn new_timeline(alloc: Global) -> Result<Timeline, Fail> {
    let spec = IngestSpec::parse(alloc, SPEC.as_bytes())?;
    Ok(Timeline::new(alloc, spec)?)
}

/// Accepts the event of a text, and tells its number.
fn accept(alloc: Global, timeline: &mut Timeline, event: &str) -> Result<u64, Fail> {
    let event = read_event(alloc, timeline.spec(), 0, event.as_bytes())?;
    Ok(timeline.accept(event)?)
}
