use crate::entries::Entries;
use crate::queries::query_of;
use crate::ranges::{Ranges, each};
use dr_ask::Query;
use dr_partial::Partial;
use dr_scatter::scatter;
use dr_spec::IngestSpec;
use dr_workers::{Gate, OpenGate, scatter_one};
use std::alloc::Global;
use std::sync::Wait;
use std::test::Fail;
use std::thread::Threads;

const SPEC: &str =
    r#"{"dataSchema":{"dataSource":"w","timestampSpec":{"column":"t","format":"iso"},"dimensionsSpec":{"dimensions":["page"]},"metricsSpec":[{"type":"longSum","name":"added","fieldName":"a"}],"granularitySpec":{"segmentGranularity":"day","queryGranularity":"none"}}}"#;

/// What was added, and how many rows, by page.
pub const SUMS: &str =
    r#"{"queryType":"groupBy","dataSource":"w","intervals":["2024-01-01/2024-01-02"],"granularity":"all","dimensions":["page"],"aggregations":[{"type":"longSum","name":"added","fieldName":"added"},{"type":"count","name":"cnt"}]}"#;

/// The query of a text.
pub fn query(alloc: Global, text: &str) -> Result<Box<Query>, Fail> {
    let spec = IngestSpec::parse(alloc, SPEC.as_bytes())?;
    query_of(alloc, spec.schema(), text)
}

/// What is found over so many ranges, by so many workers who enter a gate; by this thread alone where there are none.
fn groups_by<R: Threads + Wait + Sync, G: Gate + Sync>(
    rt: &R,
    alloc: Global,
    count: u32,
    workers: usize,
    gate: &G,
) -> Result<Partial, Fail> {
    let ranges = Ranges::new(alloc, count)?;
    let query = query(alloc, SUMS)?;
    if workers == 0 {
        return Ok(scatter_one(alloc, &query, ranges.as_slice())?);
    }
    Ok(scatter(rt, alloc, &query, ranges.as_slice(), workers, gate)?)
}

/// The sums of the groups in the order of the pages, each with the count of its rows.
pub fn values_of(alloc: Global, groups: Partial) -> Result<Vec<i64>, Fail> {
    let groups = groups.into_rows()?;
    let mut values = Vec::new(alloc);
    for group in groups.iter() {
        for value in group.metrics.as_slice() {
            values.push(*value)?;
        }
    }
    Ok(values)
}

fn values_by<R: Threads + Wait + Sync>(
    rt: &R,
    alloc: Global,
    count: u32,
    workers: usize,
) -> Result<Vec<i64>, Fail> {
    values_of(alloc, groups_by(rt, alloc, count, workers, &OpenGate)?)
}

#[test]
fn any_number_of_workers_finds_what_one_finds(rt: HostRuntime) -> Result<(), Fail> {
    for count in [0, 1, 2, 5, 16, 20] {
        let wanted = values_by(&rt, rt.alloc(), count, 0)?;
        for workers in 1..17 {
            let values = values_by(&rt, rt.alloc(), count, workers)?;
            assert!(rt; values.as_slice() == wanted.as_slice());
        }
    }
    Ok(())
}

/// Of 0 to 19 those by threes add up to 63, 70 and 57.
#[test]
fn workers_leave_out_no_range(rt: HostRuntime) -> Result<(), Fail> {
    let values = values_by(&rt, rt.alloc(), 20, 7)?;
    assert!(rt; values.as_slice() == [63, 7, 70, 7, 57, 6].as_slice());
    Ok(())
}

/// Of 0 to 2 each has a group of its own.
#[test]
fn each_range_alone_has_its_groups(rt: HostRuntime) -> Result<(), Fail> {
    let alloc = rt.alloc();
    let query = query(alloc, SUMS)?;
    let ranges = Ranges::new(alloc, 3)?;
    let mut values = Vec::new(alloc);
    for groups in each(alloc, &query, ranges.as_slice())? {
        for value in values_of(alloc, groups)? {
            values.push(value)?;
        }
    }
    assert!(rt; values.as_slice() == [0, 1, 1, 1, 2, 1].as_slice());
    Ok(())
}

/// Whether so many workers, each of whom is held until so many entries were made, enter each of so many ranges once.
fn is_passed_by<R: Threads + Wait + Sync>(
    rt: &R,
    alloc: Global,
    count: u32,
    workers: usize,
    awaited: usize,
) -> Result<bool, Fail> {
    let gate = Entries::new(alloc, count as usize, awaited)?;
    groups_by(rt, alloc, count, workers, &gate)?;
    Ok(gate.is_passed())
}

#[test]
fn as_many_workers_as_ranges_run_at_once(rt: HostRuntime) -> Result<(), Fail> {
    for count in [2u32, 3, 16] {
        let workers = count as usize;
        assert!(rt; is_passed_by(&rt, rt.alloc(), count, workers, workers)?);
    }
    Ok(())
}

#[test]
fn each_range_of_a_share_is_entered_once(rt: HostRuntime) -> Result<(), Fail> {
    assert!(rt; is_passed_by(&rt, rt.alloc(), 5, 2, 0)?);
    Ok(())
}
