ghost use Rattle.std.specs.Prelude.{◌≡◌, ◌<◌, ◌≤◌, ◌+◌};

use crate::events::{FIRST, accept, copy_of, new_spec};
use dr_node::{Books, Closed, Joined, Node, NodeError, NodeLedger, OneSeat, Seat};
use dr_spec::IngestSpec;
use std::alloc::Global;
use std::marker::Brand;
use std::sync::Wait;
use std::sync::ledger::{Blank, Ledger};

type Answer = Option<Result<Closed, NodeError>>;

/// Accepts an event by each seat, and closes the node.
fn fill<B: Books, R: Wait>(
    rt: &R,
    alloc: Global,
    spec: &IngestSpec,
    node: Node<B>,
    seats: Vec<Seat<B>>,
) -> Answer
    requires { spec.now ≡ B.schema }
{
    let mut seats = seats;
    for seat in seats.iter_mut() {
        accept(rt, alloc, &node, spec, seat, FIRST)?;
    }
    Some(node.close(seats))
}

/// What closing a node shows, each of whose seats accepted one event.
fn closed<B: Books, R: Wait>(rt: &R, alloc: Global, spec: IngestSpec, blanks: B::Blanks) -> Answer
    requires schema { spec ≡ B.schema }
    requires blanks { B.are_blank blanks }
    requires seats { B.seats ≤ 8 }
{
    let copy = copy_of(&spec)?;
    let (node, seats) = Node::<B>::new(alloc, spec, blanks).ok()?;
    fill(rt, alloc, &copy, node, seats)
}

/// The same of two books joined.
fn of_two<S: Books, T: Books, R: Wait>(
    rt: &R,
    alloc: Global,
    spec: IngestSpec,
    blanks: (S::Blanks, T::Blanks),
) -> Answer
    requires schema { spec ≡ S.schema }
    requires blanks { S.are_blank blanks.0 × T.are_blank blanks.1 }
    requires seats { S.seats + T.seats ≤ 8 }
{
    closed::<Joined<S, T>, R>(rt, alloc, spec, blanks)
}

/// Of four.
fn of_four<S: Books, T: Books, U: Books, V: Books, R: Wait>(
    rt: &R,
    alloc: Global,
    spec: IngestSpec,
    first: (S::Blanks, T::Blanks),
    second: (U::Blanks, V::Blanks),
) -> Answer
    requires schema { spec ≡ S.schema }
    requires first { S.are_blank first.0 × T.are_blank first.1 }
    requires second { U.are_blank second.0 × V.are_blank second.1 }
    requires seats { (S.seats + T.seats) + (U.seats + V.seats) ≤ 8 }
{
    of_two::<Joined<S, T>, Joined<U, V>, R>(rt, alloc, spec, (first, second))
}

/// Of eight, by pairs.
fn of_pairs<
    S: Books,
    T: Books,
    U: Books,
    V: Books,
    W: Books,
    X: Books,
    Y: Books,
    Z: Books,
    R: Wait,
>(
    rt: &R,
    alloc: Global,
    spec: IngestSpec,
    first: (S::Blanks, T::Blanks),
    second: (U::Blanks, V::Blanks),
    third: (W::Blanks, X::Blanks),
    fourth: (Y::Blanks, Z::Blanks),
) -> Answer
    requires schema { spec ≡ S.schema }
    requires first { S.are_blank first.0 × T.are_blank first.1 }
    requires second { U.are_blank second.0 × V.are_blank second.1 }
    requires third { W.are_blank third.0 × X.are_blank third.1 }
    requires fourth { Y.are_blank fourth.0 × Z.are_blank fourth.1 }
    requires seats { ((S.seats + T.seats) + (U.seats + V.seats)) + ((W.seats + X.seats) + (Y.seats + Z.seats)) ≤ 8 }
{
    of_four::<Joined<S, T>, Joined<U, V>, Joined<W, X>, Joined<Y, Z>, R>(
        rt,
        alloc,
        spec,
        (first, second),
        (third, fourth),
    )
}

/// Of the seats of eight pairs of ledgers.
fn of_eight<
    A: NodeLedger + Send,
    B: Ledger + Send,
    C: NodeLedger + Send,
    D: Ledger + Send,
    E: NodeLedger + Send,
    F: Ledger + Send,
    G: NodeLedger + Send,
    H: Ledger + Send,
    I: NodeLedger + Send,
    J: Ledger + Send,
    K: NodeLedger + Send,
    L: Ledger + Send,
    M: NodeLedger + Send,
    N: Ledger + Send,
    O: NodeLedger + Send,
    P: Ledger + Send,
    R: Wait,
>(
    rt: &R,
    alloc: Global,
    spec: IngestSpec,
    seat_0: (Blank, Blank),
    seat_1: (Blank, Blank),
    seat_2: (Blank, Blank),
    seat_3: (Blank, Blank),
    seat_4: (Blank, Blank),
    seat_5: (Blank, Blank),
    seat_6: (Blank, Blank),
    seat_7: (Blank, Blank),
) -> Answer
    requires schema { spec ≡ A.schema }
    requires seat_0 { (seat_0.0.name ≡ A.name) × (seat_0.0.parts ≡ A.parts) × (0 < A.parts) × (seat_0.1.name ≡ B.name) × (seat_0.1.parts ≡ B.parts) × (0 < B.parts) }
    requires seat_1 { (seat_1.0.name ≡ C.name) × (seat_1.0.parts ≡ C.parts) × (0 < C.parts) × (seat_1.1.name ≡ D.name) × (seat_1.1.parts ≡ D.parts) × (0 < D.parts) }
    requires seat_2 { (seat_2.0.name ≡ E.name) × (seat_2.0.parts ≡ E.parts) × (0 < E.parts) × (seat_2.1.name ≡ F.name) × (seat_2.1.parts ≡ F.parts) × (0 < F.parts) }
    requires seat_3 { (seat_3.0.name ≡ G.name) × (seat_3.0.parts ≡ G.parts) × (0 < G.parts) × (seat_3.1.name ≡ H.name) × (seat_3.1.parts ≡ H.parts) × (0 < H.parts) }
    requires seat_4 { (seat_4.0.name ≡ I.name) × (seat_4.0.parts ≡ I.parts) × (0 < I.parts) × (seat_4.1.name ≡ J.name) × (seat_4.1.parts ≡ J.parts) × (0 < J.parts) }
    requires seat_5 { (seat_5.0.name ≡ K.name) × (seat_5.0.parts ≡ K.parts) × (0 < K.parts) × (seat_5.1.name ≡ L.name) × (seat_5.1.parts ≡ L.parts) × (0 < L.parts) }
    requires seat_6 { (seat_6.0.name ≡ M.name) × (seat_6.0.parts ≡ M.parts) × (0 < M.parts) × (seat_6.1.name ≡ N.name) × (seat_6.1.parts ≡ N.parts) × (0 < N.parts) }
    requires seat_7 { (seat_7.0.name ≡ O.name) × (seat_7.0.parts ≡ O.parts) × (0 < O.parts) × (seat_7.1.name ≡ P.name) × (seat_7.1.parts ≡ P.parts) × (0 < P.parts) }
{
    of_pairs::<
        OneSeat<A, B>,
        OneSeat<C, D>,
        OneSeat<E, F>,
        OneSeat<G, H>,
        OneSeat<I, J>,
        OneSeat<K, L>,
        OneSeat<M, N>,
        OneSeat<O, P>,
        R,
    >(
        rt,
        alloc,
        spec,
        (seat_0, seat_1),
        (seat_2, seat_3),
        (seat_4, seat_5),
        (seat_6, seat_7),
    )
}

fn told<R: Wait>(rt: &R, alloc: Global) -> Answer {
    let spec = new_spec(alloc)?;
    of_eight::<
        Brand,
        Brand,
        Brand,
        Brand,
        Brand,
        Brand,
        Brand,
        Brand,
        Brand,
        Brand,
        Brand,
        Brand,
        Brand,
        Brand,
        Brand,
        Brand,
        R,
    >(
        rt,
        alloc,
        spec,
        (Blank::new(1), Blank::new(1)),
        (Blank::new(1), Blank::new(1)),
        (Blank::new(1), Blank::new(1)),
        (Blank::new(1), Blank::new(1)),
        (Blank::new(1), Blank::new(1)),
        (Blank::new(1), Blank::new(1)),
        (Blank::new(1), Blank::new(1)),
        (Blank::new(1), Blank::new(1)),
    )
}

#[test]
fn eight_seats_are_closed_together(rt: HostRuntime) {
    let Some(answer) = told(&rt, rt.alloc()) else {
        panic!(rt; "no answer");
    };
    let Ok(closed) = answer else {
        panic!(rt; "a refusal");
    };
    assert!(rt; closed.snapshot.event_count() == 8);
    assert!(rt; closed.mine.as_slice() == [1; 8].as_slice());
}
