ghost use Rattle.std.specs.Prelude.{◌≡◌, IfSome};
ghost use Rattle.dr_schema.specs.Fits.{FitsSchema};

use dr_base::Event;
use dr_events::read_event;
use dr_node::{Books, Node, Seat};
use dr_spec::IngestSpec;
use std::alloc::Global;
use std::sync::Wait;
use std::sync::ledger::Blank;

const SPEC: &str =
    r#"{"dataSchema":{"dataSource":"w","timestampSpec":{"column":"t","format":"iso"},"dimensionsSpec":{"dimensions":["page","lang"]},"metricsSpec":[{"type":"count","name":"n"},{"type":"longSum","name":"added","fieldName":"a"},{"type":"longMin","name":"lo","fieldName":"a"},{"type":"longMax","name":"hi","fieldName":"a"}],"granularitySpec":{"segmentGranularity":"day","queryGranularity":"hour"}}}"#;

/// The start of the day of the events.
pub const DAY: i64 = 1_704_067_200_000;

pub const FIRST: &str = r#"{"t":"2024-01-01T00:10:00Z","page":"A","lang":"en","a":5}"#;

pub const SECOND: &str = r#"{"t":"2024-01-01T00:50:00Z","page":"A","lang":"en","a":7}"#;

pub const THIRD: &str = r#"{"t":"2024-01-01T01:30:00Z","page":"B","lang":"en","a":-2}"#;

pub fn new_spec(alloc: Global) -> Option<IngestSpec> {
    IngestSpec::parse(alloc, SPEC.as_bytes()).ok()
}

/// An equal spec.
pub fn copy_of(spec: &IngestSpec) -> Option<IngestSpec>
    ensures { IfSome result (λ copy. copy ≡ spec.now) }
{
    match spec.copy() {
        Ok(copy) => Some(copy),
        Err(_) => None,
    }
}

/// An event with the mark of a seat.
fn event_of(alloc: Global, spec: &IngestSpec, seat: u8, text: &str) -> Option<Event>
    ensures fits { IfSome result (FitsSchema spec.now) }
    ensures seat { IfSome result (λ event. event.seat ≡ seat) }
{
    let Event {
        seat: _,
        time,
        dims,
        inputs,
    } = read_event(alloc, spec, seat, text.as_bytes()).ok()?;
    Some(Event {
        seat,
        time,
        dims,
        inputs,
    })
}

/// Accepts an event through a seat, and tells its number.
pub fn accept<B: Books, R: Wait>(
    rt: &R,
    alloc: Global,
    node: &Node<B>,
    spec: &IngestSpec,
    seat: &mut Seat<B>,
    text: &str,
) -> Option<u64>
    requires { spec.now ≡ B.schema }
{
    let event = event_of(alloc, spec, seat.number(), text)?;
    let receipt = node.accept(rt, seat, event).ok()?;
    Some(receipt.number())
}

/// Blanks for two seats.
pub fn blanks() -> ((Blank, Blank), (Blank, Blank))
    ensures { (result.0.0.parts ≡ 1) × (result.0.1.parts ≡ 1) × (result.1.0.parts ≡ 1) × (result.1.1.parts ≡ 1) }
{
    (
        (Blank::new(1), Blank::new(1)),
        (Blank::new(1), Blank::new(1)),
    )
}
