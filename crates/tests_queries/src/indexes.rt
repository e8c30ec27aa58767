ghost use Rattle.std.specs.Prelude.{◌≡◌, IfOk, OnOk};
ghost use Rattle.dr_schema.specs.Fits.{FitsSchema};

use crate::rows::{COUNT, row_at};
use dr_base::Event;
use dr_events::read_event;
use dr_rollup::OpenIndex;
use dr_spec::IngestSpec;
use std::alloc::Global;
use std::test::Fail;

/// The events of the rows of the table of filters.
const EVENTS: [&str; 8] = [
    r#"{"t":"2024-01-01T00:00:00Z","page":"Äb"}"#,
    r#"{"t":"2024-01-01T00:00:00Z","page":"b","lang":"en"}"#,
    r#"{"t":"2023-12-31T23:59:59.999Z","lang":"de"}"#,
    r#"{"t":"2024-01-02T00:00:00Z","page":"x","lang":"en"}"#,
    r#"{"t":"2024-01-01T23:59:59.999Z","page":"Äb","lang":"en"}"#,
    r#"{"t":"2024-01-01T00:00:00.001Z","page":"a","lang":null}"#,
    r#"{"t":"2024-01-01T00:00:00Z","page":"ÄbÄ","lang":"de"}"#,
    r#"{"t":"2023-12-31T00:00:00Z","page":7,"lang":"Äb"}"#,
];

/// An index with the rows of the table of filters, again and again, each an event of its own.
pub fn filled(alloc: Global, spec: &IngestSpec) -> Result<OpenIndex, Fail> {
    let mut index = OpenIndex::new(alloc, spec.schema(), COUNT)?;
    for place in 0..COUNT {
        add(alloc, spec, &mut index, EVENTS[row_at(place) % 8])?;
    }
    Ok(index)
}

// Adds the event of a text.
fn add(alloc: Global, spec: &IngestSpec, index: &mut OpenIndex, event: &str) -> Result<(), Fail>
    requires { index.old.schema ≡ spec.now }
    ensures { OnOk result (index.new.schema ≡ spec.now) }
{
    let event = read(alloc, spec, event)?;
    Ok(index.add(&event)?)
}

fn read(alloc: Global, spec: &IngestSpec, event: &str) -> Result<Event, Fail>
    ensures { IfOk result (FitsSchema spec.now) }
{
    Ok(read_event(alloc, spec, 0, event.as_bytes())?)
}
