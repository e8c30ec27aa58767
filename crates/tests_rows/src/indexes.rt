use crate::rows::{SPEC, are_those_of_three};
use dr_base::Event;
use dr_events::read_event;
use dr_rollup::{OpenIndex, RollupError};
use dr_spec::IngestSpec;
use std::alloc::Global;
use std::test::Fail;

const E1: &str = r#"{"t":"2024-01-01T00:10:00Z","page":"A","lang":"en","a":5}"#;

const E2: &str = r#"{"t":"2024-01-01T00:50:00Z","page":"A","lang":"en","a":7}"#;

const E3: &str = r#"{"t":"2024-01-01T01:30:00Z","page":"B","lang":"en","a":-2}"#;

#[test]
fn an_open_index_rolls_events_up(rt: HostRuntime) -> Result<(), Fail> {
    let alloc = rt.alloc();
    let spec = IngestSpec::parse(alloc, SPEC.as_bytes())?;
    let mut index = OpenIndex::new(alloc, spec.schema(), 2)?;
    index.add(&read_event(alloc, &spec, 0, E1.as_bytes())?)?;
    index.add(&read_event(alloc, &spec, 0, E2.as_bytes())?)?;
    index.add(&read_event(alloc, &spec, 0, E3.as_bytes())?)?;
    let rows = index.rows()?;
    assert!(rt; are_those_of_three(&rows));
    Ok(())
}

#[test]
fn an_open_index_takes_no_row_past_its_limit(rt: HostRuntime) -> Result<(), Fail> {
    let alloc = rt.alloc();
    let spec = IngestSpec::parse(alloc, SPEC.as_bytes())?;
    let mut index = OpenIndex::new(alloc, spec.schema(), 1)?;
    index.add(&read_event(alloc, &spec, 0, E1.as_bytes())?)?;
    index.add(&read_event(alloc, &spec, 0, E2.as_bytes())?)?;
    let told = index.add(&read_event(alloc, &spec, 0, E3.as_bytes())?);
    assert!(rt; is_full(told));
    assert!(rt; index.len() == 1);
    Ok(())
}

fn is_full(told: Result<(), RollupError>) -> bool {
    match told {
        Ok(()) => false,
        Err(error) => error.number() == 41,
    }
}
