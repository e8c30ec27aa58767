use crate::bell::Bell;
use crate::ending::Ending;
use crate::meeting::Meeting;
use crate::publications::Publications;
use crate::signals::Signals;
use dr_load::{load_run, load_watched};
use std::sync::atomic::AtomicBool;
use std::test::Fail;

const SPEC: &[u8] =
    br#"{"dataSchema":{"dataSource":"w","timestampSpec":{"column":"t","format":"iso"},"dimensionsSpec":{"dimensions":["page"]},"metricsSpec":[{"type":"count","name":"cnt"},{"type":"longSum","name":"added","fieldName":"added"}],"granularitySpec":{"segmentGranularity":"day","queryGranularity":"hour"}}}"#;

/// The same, with a range for each event.
const SINGLE: &[u8] =
    br#"{"dataSchema":{"dataSource":"w","timestampSpec":{"column":"t","format":"iso"},"dimensionsSpec":{"dimensions":["page"]},"metricsSpec":[{"type":"count","name":"cnt"},{"type":"longSum","name":"added","fieldName":"added"}],"granularitySpec":{"segmentGranularity":"day","queryGranularity":"hour"}},"tuningConfig":{"maxRowsInMemory":1}}"#;

const QUERY: &[u8] =
    br#"{"queryType":"timeseries","dataSource":"w","intervals":["2024-01-01/2024-01-02"],"granularity":"all","aggregations":[{"type":"longSum","name":"added","fieldName":"added"}]}"#;

const FIRST: &[u8] = br#"{"t":"2024-01-01T00:10:00Z","page":"A","added":5}
{"t":"2024-01-01T00:20:00Z","page":"A","added":7}
"#;

const SECOND: &[u8] = br#"{"t":"2024-01-01T01:00:00Z","page":"B","added":-2}

"#;

const TOLD: &[u8] =
    b"processed 3 unparseable 1 thrownAway 0\n[{\"result\":{\"added\":10},\"timestamp\":\"2024-01-01T00:00:00.000Z\"}]\n";

#[test]
fn two_files_whose_first_reads_wait_for_each_other_are_loaded(rt: HostRuntime) -> Result<(), Fail> {
    let (first, second) = (AtomicBool::new(false), AtomicBool::new(false));
    let mut files = Vec::with_capacity(rt.alloc(), 2)?;
    files.push(Meeting::new(FIRST, &first, &second))?;
    files.push(Meeting::new(SECOND, &second, &first))?;
    let Ok(text) = load_run(&rt, SPEC, QUERY, files, 1) else {
        panic!(rt; "no answer");
    };
    assert!(rt; text.as_slice() == TOLD);
    Ok(())
}

#[test]
fn a_file_that_waits_for_an_answer_is_loaded(rt: HostRuntime) -> Result<(), Fail> {
    let (read, answered) = (AtomicBool::new(false), AtomicBool::new(false));
    let mut files = Vec::with_capacity(rt.alloc(), 2)?;
    files.push(Meeting::new(FIRST, &read, &answered))?;
    files.push(Meeting::new(SECOND, &read, &answered))?;
    let Ok(text) = load_watched(&rt, SPEC, QUERY, files, 1, &Bell { rung: &answered }) else {
        panic!(rt; "no answer");
    };
    assert!(rt; text.as_slice() == TOLD);
    Ok(())
}

/// Two events of one chunk, each sealed at once.
#[test]
fn a_file_that_waits_for_a_publication_is_loaded(rt: HostRuntime) -> Result<(), Fail> {
    let published = AtomicBool::new(false);
    let mut files = Vec::with_capacity(rt.alloc(), 1)?;
    files.push(Ending::new(FIRST, &published))?;
    let watch = Publications { seen: &published };
    let Ok(text) = load_watched(&rt, SINGLE, QUERY, files, 1, &watch) else {
        panic!(rt; "no answer");
    };
    let wanted =
        b"processed 2 unparseable 0 thrownAway 0\n[{\"result\":{\"added\":12},\"timestamp\":\"2024-01-01T00:00:00.000Z\"}]\n";
    assert!(rt; text.as_slice() == wanted.as_slice());
    Ok(())
}

#[test]
fn a_file_whose_read_fails_is_refused(rt: HostRuntime) -> Result<(), Fail> {
    let (first, second) = (AtomicBool::new(true), AtomicBool::new(true));
    let mut files = Vec::with_capacity(rt.alloc(), 2)?;
    files.push(Meeting::new(FIRST, &first, &second))?;
    files.push(Meeting::failing(&second, &first))?;
    let Err(error) = load_run(&rt, SPEC, QUERY, files, 1) else {
        panic!(rt; "no refusal");
    };
    assert!(rt; error.number() == 99);
    Ok(())
}

#[test]
fn files_whose_reads_are_interrupted_are_loaded(rt: HostRuntime) -> Result<(), Fail> {
    for workers in [1, 2, 4] {
        let mut files = Vec::with_capacity(rt.alloc(), 2)?;
        files.push(Signals::new(FIRST))?;
        files.push(Signals::new(SECOND))?;
        let Ok(text) = load_run(&rt, SPEC, QUERY, files, workers) else {
            panic!(rt; "no answer");
        };
        assert!(rt; text.as_slice() == TOLD);
    }
    Ok(())
}
