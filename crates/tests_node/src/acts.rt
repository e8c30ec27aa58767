ghost use Rattle.std.specs.Prelude.{◌≡◌, ◌<◌, IfSome};

use crate::events::{DAY, FIRST, SECOND, THIRD, accept, copy_of, new_spec};
use crate::queries::query_of;
use dr_node::{Books, CommitAct, Node, NodeLedger, OneSeat, PlanAct, SealAct, Seat};
use dr_spec::IngestSpec;
use dr_timeline::{Purpose, Snapshot, work};
use std::alloc::Global;
use std::marker::Brand;
use std::sync::Wait;
use std::sync::ledger::{Blank, Ledger};

/// The sums by hour, and how many rows there are.
const SUMS: &str =
    r#"{"queryType":"timeseries","dataSource":"w","intervals":["2024-01-01/2024-01-02"],"granularity":"hour","aggregations":[{"type":"longSum","name":"added","fieldName":"added"},{"type":"longSum","name":"n","fieldName":"n"},{"type":"count","name":"cnt"}]}"#;

/// Seals the open range of the day.
pub fn seal<B: Books, R: Wait>(rt: &R, node: &Node<B>) -> Option<()> {
    node.apply(rt, SealAct { chunk: DAY }).ok()
}

/// Joins the sealed ranges of the day up to a place, and tells the version.
pub fn join<B: Books, R: Wait>(
    rt: &R,
    alloc: Global,
    node: &Node<B>,
    hi: usize,
    purpose: Purpose,
) -> Option<u64> {
    let plan = PlanAct {
        chunk: DAY,
        lo: 0,
        hi,
        purpose,
    };
    let Ok(job) = node.apply(rt, plan) else {
        return None;
    };
    let Ok(fragment) = work(alloc, node.schema(), &job) else {
        return None;
    };
    let commit = CommitAct {
        job: &job,
        fragment,
    };
    node.apply(rt, commit).ok()
}

/// Snapshots before and after two ranges were merged.
fn before_and_after<B: Books, R: Wait>(
    rt: &R,
    alloc: Global,
    node: &Node<B>,
    spec: &IngestSpec,
    seat: &mut Seat<B>,
) -> Option<(Snapshot, Snapshot)>
    requires { spec.now ≡ B.schema }
    ensures { IfSome result (λ s. (s.0.schema ≡ B.schema) × (s.1.schema ≡ B.schema)) }
{
    accept(rt, alloc, node, spec, seat, FIRST)?;
    seal(rt, node)?;
    accept(rt, alloc, node, spec, seat, SECOND)?;
    accept(rt, alloc, node, spec, seat, THIRD)?;
    let Ok(before) = node.pin(rt, seat) else {
        return None;
    };
    seal(rt, node)?;
    join(rt, alloc, node, 2, Purpose::Merge)?;
    let Ok(after) = node.pin(rt, seat) else {
        return None;
    };
    Some((before, after))
}

/// What a snapshot answers.
fn answer_of<B: Books>(alloc: Global, node: &Node<B>, snapshot: &Snapshot) -> Option<Vec<u8>>
    requires { snapshot.now.schema ≡ B.schema }
{
    let query = query_of(alloc, node.schema(), SUMS)?;
    snapshot.answer_one(&query).ok()
}

/// What the snapshots answer that a seat pins before and after two ranges were merged.
fn answers_of<B: Books, R: Wait>(
    rt: &R,
    alloc: Global,
    node: &Node<B>,
    spec: &IngestSpec,
    seat: &mut Seat<B>,
) -> Option<(Vec<u8>, Vec<u8>)>
    requires { spec.now ≡ B.schema }
{
    let (before, after) = before_and_after(rt, alloc, node, spec, seat)?;
    let first = answer_of(alloc, node, &before);
    let second = answer_of(alloc, node, &after);
    first.zip(second)
}

/// The same on a node of one seat.
fn answers<A: NodeLedger + Send, B: Ledger + Send, R: Wait>(
    rt: &R,
    alloc: Global,
    spec: IngestSpec,
    blanks: (Blank, Blank),
) -> Option<(Vec<u8>, Vec<u8>)>
    requires schema { spec ≡ A.schema }
    requires mine { (blanks.0.name ≡ A.name) × (blanks.0.parts ≡ A.parts) × (0 < A.parts) }
    requires floor { (blanks.1.name ≡ B.name) × (blanks.1.parts ≡ B.parts) × (0 < B.parts) }
{
    let copy = copy_of(&spec)?;
    let (node, mut seats) = Node::<OneSeat<A, B>>::new(alloc, spec, blanks).ok()?;
    answers_of(rt, alloc, &node, &copy, seats.first_mut()?)
}

fn told<R: Wait>(rt: &R, alloc: Global) -> Option<(Vec<u8>, Vec<u8>)> {
    let spec = new_spec(alloc)?;
    answers::<Brand, Brand, R>(rt, alloc, spec, (Blank::new(1), Blank::new(1)))
}

#[test]
fn acts_change_what_a_later_pin_shows_and_no_earlier_one(rt: HostRuntime) {
    let Some((before, after)) = told(&rt, rt.alloc()) else {
        panic!(rt; "no answer");
    };
    assert!(rt;
        before.as_slice()
            == br#"[{"result":{"added":12,"cnt":2,"n":2},"timestamp":"2024-01-01T00:00:00.000Z"},{"result":{"added":-2,"cnt":1,"n":1},"timestamp":"2024-01-01T01:00:00.000Z"}]"#.as_slice()
    );
    assert!(rt;
        after.as_slice()
            == br#"[{"result":{"added":12,"cnt":1,"n":2},"timestamp":"2024-01-01T00:00:00.000Z"},{"result":{"added":-2,"cnt":1,"n":1},"timestamp":"2024-01-01T01:00:00.000Z"}]"#.as_slice()
    );
}
