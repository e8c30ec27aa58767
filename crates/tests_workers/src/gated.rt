use crate::answers::pinned;
use crate::entries::Entries;
use std::alloc::Global;
use std::sync::Wait;
use std::test::Fail;
use std::thread::Threads;

const EVENTS: [&str; 3] = [
    r#"{"t":"2024-01-01T00:10:00Z","page":"A","lang":"en","a":5}"#,
    r#"{"t":"2024-01-01T00:50:00Z","page":"A","lang":"en","a":7}"#,
    r#"{"t":"2024-01-01T01:30:00Z","page":"B","lang":"en","a":-2}"#,
];

/// What was added by hour, and how many events.
const SUMS: &str =
    r#"{"queryType":"timeseries","dataSource":"w","intervals":["2024-01-01/2024-01-02"],"granularity":"hour","aggregations":[{"type":"longSum","name":"added","fieldName":"added"},{"type":"longSum","name":"n","fieldName":"n"}]}"#;

/// The sums over two ranges by two workers of whom each waits for the other; whether both were let through is told by the gate.
fn sums_by_two<R: Threads + Wait + Sync>(
    rt: &R,
    alloc: Global,
    gate: &Entries,
) -> Result<Vec<u8>, Fail> {
    let (snapshot, query) = pinned(alloc, &EVENTS, 1, SUMS)?;
    Ok(snapshot.answer(rt, &query, 2, gate)?)
}

#[test]
fn two_workers_answer_at_once(rt: HostRuntime) -> Result<(), Fail> {
    let gate = Entries::new(rt.alloc(), 2, 2)?;
    let text = sums_by_two(&rt, rt.alloc(), &gate)?;
    let wanted =
        br#"[{"result":{"added":12,"n":2},"timestamp":"2024-01-01T00:00:00.000Z"},{"result":{"added":-2,"n":1},"timestamp":"2024-01-01T01:00:00.000Z"}]"#;
    assert!(rt; text.as_slice() == wanted.as_slice());
    assert!(rt; gate.is_passed());
    Ok(())
}
