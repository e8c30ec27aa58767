use dr_base::Event;
use dr_events::read_event;
use dr_schema::Metrics;
use dr_spec::IngestSpec;
use std::alloc::Global;
use std::test::Fail;

const SPEC: &[u8] =
    br#"{"dataSchema":{"dataSource":"w","timestampSpec":{"column":"t","format":"iso"},"dimensionsSpec":{"dimensions":["page"]},"metricsSpec":[{"type":"count","name":"n"},{"type":"longSum","name":"added","fieldName":"a"}]}}"#;

// The event of a line, by a copy of the spec.
fn read(alloc: Global, line: &[u8]) -> Result<Event, Fail> {
    let spec = IngestSpec::parse(alloc, SPEC)?.copy()?;
    Ok(read_event(alloc, &spec, 255, line)?)
}

fn columns(alloc: Global) -> Result<Metrics, Fail> {
    let spec = IngestSpec::parse(alloc, SPEC)?;
    Ok(spec.schema().metrics().copy()?)
}

#[test]
fn copies_columns(rt: HostRuntime) -> Result<(), Fail> {
    let columns = columns(rt.alloc())?;
    assert!(rt; columns.len() == 2);
    for (column, name) in columns.as_slice().iter().zip(&["n", "added"]) {
        assert!(rt; column.name.as_str() == *name);
    }
    Ok(())
}

#[test]
fn reads_an_event_with_its_seat(rt: HostRuntime) -> Result<(), Fail> {
    let event = read(rt.alloc(), br#"{"t":"2024-01-01","a":-2,"page":"A"}"#)?;
    assert!(rt; event.seat == 255 && event.time == 1_704_067_200_000);
    assert!(rt; event.inputs.as_slice() == [1, -2].as_slice());
    assert!(rt; event.dims.len() == 1);
    for text in event.dims.as_slice() {
        assert!(rt; text.as_str() == "A");
    }
    Ok(())
}
