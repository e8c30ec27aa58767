ghost use Rattle.std.specs.Prelude.{◌≡◌, ◌<◌};

use crate::events::{FIRST, SECOND, THIRD, accept, blanks, copy_of, new_spec};
use crate::pairs::pair_of;
use dr_node::{Books, Closed, Joined, Node, NodeError, NodeLedger, OneSeat, Seat};
use dr_spec::IngestSpec;
use dr_timeline::Snapshot;
use std::alloc::Global;
use std::marker::Brand;
use std::sync::Wait;
use std::sync::ledger::{Blank, Ledger};
use std::thread;
use std::thread::Threads;

type Two<A, B, C, D> = Joined<OneSeat<A, B>, OneSeat<C, D>>;

/// The times of the events of a snapshot with a mark, in order.
fn times_in(alloc: Global, snapshot: &Snapshot, mark: u8) -> Option<Vec<i64>> {
    let mut times = Vec::new(alloc);
    for number in 0..snapshot.event_count() {
        let event = snapshot.event(number as u64)?;
        if event.seat == mark {
            times.push(event.time).ok()?;
        }
    }
    Some(times)
}

/// Accepts two events, and tells the times of its own that a pin then shows.
fn accept_two<B: Books, R: Wait>(
    rt: &R,
    alloc: Global,
    node: &Node<B>,
    spec: &IngestSpec,
    seat: Seat<B>,
) -> Option<(Seat<B>, Vec<i64>)>
    requires { spec.now ≡ B.schema }
{
    let mut seat = seat;
    accept(rt, alloc, node, spec, &mut seat, FIRST)?;
    accept(rt, alloc, node, spec, &mut seat, SECOND)?;
    let snapshot = node.pin(rt, &mut seat).ok()?;
    let own = times_in(alloc, &snapshot, seat.number())?;
    Some((seat, own))
}

/// Accepts one event.
fn accept_one<B: Books, R: Wait>(
    rt: &R,
    alloc: Global,
    node: &Node<B>,
    spec: &IngestSpec,
    seat: Seat<B>,
) -> Option<Seat<B>>
    requires { spec.now ≡ B.schema }
{
    let mut seat = seat;
    accept(rt, alloc, node, spec, &mut seat, THIRD)?;
    Some(seat)
}

/// Two threads accept events at once: one two events by the first seat, of which a pin of it shows the times, one an event by the
/// second.
fn both_accept<B: Books, R: Threads + Wait + Sync>(
    rt: &R,
    alloc: Global,
    node: &Node<B>,
    spec: &IngestSpec,
    first: Seat<B>,
    second: Seat<B>,
) -> Option<((Seat<B>, Vec<i64>), Seat<B>)>
    requires { spec.now ≡ B.schema }
{
    let (first, second) = thread::join(
        rt,
        move || -> Option<(Seat<B>, Vec<i64>)>
            requires { spec.now ≡ B.schema }
        { accept_two(rt, alloc, node, spec, first) },
        move || -> Option<Seat<B>>
            requires { spec.now ≡ B.schema }
        { accept_one(rt, alloc, node, spec, second) },
    );
    first.zip(second)
}

/// What a pin of the first seat shows of its own events, and what closing the node then shows with both seats or with one.
fn two_threads<
    A: NodeLedger + Send + Sync,
    B: Ledger + Send + Sync,
    C: NodeLedger + Send + Sync,
    D: Ledger + Send + Sync,
    R: Threads + Wait + Sync,
>(
    rt: &R,
    alloc: Global,
    spec: IngestSpec,
    blanks: ((Blank, Blank), (Blank, Blank)),
    both: bool,
) -> Option<(Vec<i64>, Result<Closed, NodeError>)>
    requires schema { spec ≡ A.schema }
    requires first_mine { (blanks.0.0.name ≡ A.name) × (blanks.0.0.parts ≡ A.parts) × (0 < A.parts) }
    requires first_floor { (blanks.0.1.name ≡ B.name) × (blanks.0.1.parts ≡ B.parts) × (0 < B.parts) }
    requires second_mine { (blanks.1.0.name ≡ C.name) × (blanks.1.0.parts ≡ C.parts) × (0 < C.parts) }
    requires second_floor { (blanks.1.1.name ≡ D.name) × (blanks.1.1.parts ≡ D.parts) × (0 < D.parts) }
{
    let copy = copy_of(&spec)?;
    let (node, seats) = Node::<Two<A, B, C, D>>::new(alloc, spec, blanks).ok()?;
    let (own, seats) = seen_by(rt, alloc, &node, &copy, seats, both)?;
    Some((own, node.close(seats)))
}

/// What a pin of the first seat shows of its own events, and both seats afterwards, or the first alone.
fn seen_by<B: Books, R: Threads + Wait + Sync>(
    rt: &R,
    alloc: Global,
    node: &Node<B>,
    spec: &IngestSpec,
    seats: Vec<Seat<B>>,
    both: bool,
) -> Option<(Vec<i64>, Vec<Seat<B>>)>
    requires { spec.now ≡ B.schema }
{
    let (first, second) = pair_of(seats)?;
    let ((first, own), second) = both_accept(rt, alloc, node, spec, first, second)?;
    let mut seats = Vec::new(alloc);
    seats.push(first).ok()?;
    if both {
        seats.push(second).ok()?;
    }
    Some((own, seats))
}

/// What two threads show, closed with both seats or with one.
fn told<R: Threads + Wait + Sync>(
    rt: &R,
    alloc: Global,
    both: bool,
) -> Option<(Vec<i64>, Result<Closed, NodeError>)> {
    let spec = new_spec(alloc)?;
    two_threads::<Brand, Brand, Brand, Brand, R>(rt, alloc, spec, blanks(), both)
}

#[test]
fn a_pin_shows_the_events_of_its_seat_and_closing_those_of_both(rt: HostRuntime) {
    let Some((own, answer)) = told(&rt, rt.alloc(), true) else {
        panic!(rt; "no answer");
    };
    let Ok(closed) = answer else {
        panic!(rt; "a refusal");
    };
    assert!(rt; own.as_slice() == [1_704_067_800_000, 1_704_070_200_000].as_slice());
    assert!(rt; closed.snapshot.event_count() == 3);
    assert!(rt; closed.mine.as_slice() == [2, 1].as_slice());
    let Some(first) = times_in(rt.alloc(), &closed.snapshot, 0) else {
        panic!(rt; "no memory");
    };
    let Some(second) = times_in(rt.alloc(), &closed.snapshot, 1) else {
        panic!(rt; "no memory");
    };
    assert!(rt; first.as_slice() == [1_704_067_800_000, 1_704_070_200_000].as_slice());
    assert!(rt; second.as_slice() == [1_704_072_600_000].as_slice());
}

#[test]
fn closing_without_a_seat_is_refused(rt: HostRuntime) {
    let Some((_own, answer)) = told(&rt, rt.alloc(), false) else {
        panic!(rt; "no answer");
    };
    let Err(error) = answer else {
        panic!(rt; "no refusal");
    };
    assert!(rt; error == NodeError::HistoryMismatch);
}
