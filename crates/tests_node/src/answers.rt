ghost use Rattle.std.specs.Prelude.{◌≡◌, ◌<◌};

use crate::events::{FIRST, THIRD, accept, blanks, copy_of, new_spec};
use crate::pairs::pair_of;
use crate::queries::query_of;
use crate::turns::{Held, wait_for};
use dr_node::{Books, Joined, Node, NodeLedger, OneSeat, Seat};
use dr_spec::IngestSpec;
use std::alloc::Global;
use std::marker::Brand;
use std::sync::Wait;
use std::sync::atomic::Ordering;
use std::sync::ledger::{Blank, Ledger};
use std::thread;
use std::thread::Threads;

type Two<A, B, C, D> = Joined<OneSeat<A, B>, OneSeat<C, D>>;

const QUERY: &str =
    r#"{"queryType":"timeseries","dataSource":"w","intervals":["2024-01-01/2024-01-02"],"granularity":"all","aggregations":[{"type":"longSum","name":"added","fieldName":"added"}]}"#;

const ANSWER: &[u8] = br#"[{"result":{"added":5},"timestamp":"2024-01-01T00:00:00.000Z"}]"#;

/// The answer over a snapshot that the seat pins, while the gate is held.
fn answer<B: Books, R: Threads + Wait + Sync>(
    rt: &R,
    alloc: Global,
    node: &Node<B>,
    spec: &IngestSpec,
    seat: &mut Seat<B>,
    gate: &Held,
) -> Option<Vec<u8>>
    requires { spec.now ≡ B.schema }
{
    let query = query_of(alloc, spec.schema(), QUERY)?;
    let snapshot = node.pin(rt, seat).ok()?;
    snapshot.answer(rt, &query, 1, gate).ok()
}

/// Once the gate is held: accepts an event, and lets the gate go.
fn beside_answer<B: Books, R: Wait>(
    rt: &R,
    alloc: Global,
    node: &Node<B>,
    spec: &IngestSpec,
    seat: &mut Seat<B>,
    gate: &Held,
) -> Option<u64>
    requires { spec.now ≡ B.schema }
{
    if !wait_for(&gate.entered) {
        return None;
    }
    let number = accept(rt, alloc, node, spec, seat, THIRD);
    gate.answered.store(true, Ordering::SeqCst);
    number
}

/// One thread answers by the first seat, and another one accepts an event by the second meanwhile.
fn at_once<B: Books, R: Threads + Wait + Sync>(
    rt: &R,
    alloc: Global,
    node: &Node<B>,
    spec: &IngestSpec,
    gate: &Held,
    first: Seat<B>,
    second: Seat<B>,
) -> Option<(Vec<u8>, u64)>
    requires { spec.now ≡ B.schema }
{
    let (text, number) = thread::join(
        rt,
        move || -> Option<Vec<u8>>
            requires { spec.now ≡ B.schema }
        {
            let mut seat = first;
            answer(rt, alloc, node, spec, &mut seat, gate)
        },
        move || -> Option<u64>
            requires { spec.now ≡ B.schema }
        {
            let mut seat = second;
            beside_answer(rt, alloc, node, spec, &mut seat, gate)
        },
    );
    text.zip(number)
}

/// What is answered over one event, the number of an event that is accepted meanwhile, and whether the gate was held for all
/// turns.
fn answered<
    A: NodeLedger + Send + Sync,
    B: Ledger + Send + Sync,
    C: NodeLedger + Send + Sync,
    D: Ledger + Send + Sync,
    R: Threads + Wait + Sync,
>(
    rt: &R,
    alloc: Global,
    spec: IngestSpec,
    blanks: ((Blank, Blank), (Blank, Blank)),
) -> Option<(Vec<u8>, u64, bool)>
    requires schema { spec ≡ A.schema }
    requires first_mine { (blanks.0.0.name ≡ A.name) × (blanks.0.0.parts ≡ A.parts) × (0 < A.parts) }
    requires first_floor { (blanks.0.1.name ≡ B.name) × (blanks.0.1.parts ≡ B.parts) × (0 < B.parts) }
    requires second_mine { (blanks.1.0.name ≡ C.name) × (blanks.1.0.parts ≡ C.parts) × (0 < C.parts) }
    requires second_floor { (blanks.1.1.name ≡ D.name) × (blanks.1.1.parts ≡ D.parts) × (0 < D.parts) }
{
    let copy = copy_of(&spec)?;
    let (node, seats) = Node::<Two<A, B, C, D>>::new(alloc, spec, blanks).ok()?;
    answered_by(rt, alloc, &node, &copy, seats)
}

/// The same on a node that was made.
fn answered_by<B: Books, R: Threads + Wait + Sync>(
    rt: &R,
    alloc: Global,
    node: &Node<B>,
    spec: &IngestSpec,
    seats: Vec<Seat<B>>,
) -> Option<(Vec<u8>, u64, bool)>
    requires { spec.now ≡ B.schema }
{
    let (first, mut second) = pair_of(seats)?;
    accept(rt, alloc, node, spec, &mut second, FIRST)?;
    let gate = Held::new();
    let (text, number) = at_once(rt, alloc, node, spec, &gate, first, second)?;
    Some((text, number, gate.late.load(Ordering::SeqCst)))
}

fn told<R: Threads + Wait + Sync>(rt: &R, alloc: Global) -> Option<(Vec<u8>, u64, bool)> {
    let spec = new_spec(alloc)?;
    answered::<Brand, Brand, Brand, Brand, R>(rt, alloc, spec, blanks())
}

#[test]
fn an_event_is_accepted_while_an_answer_is_held(rt: HostRuntime) {
    let Some((answer, number, late)) = told(&rt, rt.alloc()) else {
        panic!(rt; "no answer");
    };
    assert!(rt; !late);
    assert!(rt; number == 1);
    assert!(rt; answer.as_slice() == ANSWER);
}
