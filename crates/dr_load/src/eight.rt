ghost use Rattle.std.specs.Prelude.{◌≡◌, ◌+◌, ◌<◌, ◌≤◌, true, IfOk, length};
ghost use Rattle.std.specs.Box.{box_value};
ghost use Rattle.dr_ask.specs.Asked.{asked};
ghost use Rattle.dr_ask.specs.MadeFor.{MadeFor};
ghost use Rattle.dr_ask.specs.Matching.{is_matching};
ghost use Rattle.dr_load.specs.Load.{TellsRaw};

use crate::failure::Failure;
use crate::node_load::load_into;
use crate::order::Order;
use crate::watch::Watch;
use dr_books::{Books, Joined, NodeLedger, OneSeat};
use dr_node::{Node, Seat};
use dr_spec::IngestSpec;
use std::alloc::{AllocError, Global};
use std::io::Read;
use std::marker::Brand;
use std::sync::Wait;
use std::sync::ledger::{Blank, Ledger};
use std::thread::Threads;
use std::time::Clock;

/// Loads the files into a node of eight seats: six for files, one for the merger and one for the query thread.
pub(crate) fn on_eight_seats<
    R: Read + Send + Drop,
    Q: Threads + Wait + Clock + Sync,
    N: Watch + Sync,
>(rt: &Q, alloc: Global, order: Order<R>, watch: &N) -> Result<Vec<u8>, Failure>
    requires query { MadeFor order.spec (asked (box_value order.query)) }
    requires matching { is_matching (asked (box_value order.query)) ≡ true }
    requires files { length order.files.items ≤ 6 }
    ensures { IfOk result (λ text. TellsRaw order.spec (asked (box_value order.query)) text.items) }
{
    of_eight::<
        Brand,
        Brand,
        Brand,
        Brand,
        Brand,
        Brand,
        Brand,
        Brand,
        Brand,
        Brand,
        Brand,
        Brand,
        Brand,
        Brand,
        Brand,
        Brand,
        R,
        Q,
        N,
    >(
        rt,
        alloc,
        order,
        watch,
        (Blank::new(1), Blank::new(1)),
        (Blank::new(1), Blank::new(1)),
        (Blank::new(1), Blank::new(1)),
        (Blank::new(1), Blank::new(1)),
        (Blank::new(1), Blank::new(1)),
        (Blank::new(1), Blank::new(1)),
        (Blank::new(1), Blank::new(1)),
        (Blank::new(1), Blank::new(1)),
    )
}

// Of the seats of eight pairs of ledgers.
fn of_eight<
    A: NodeLedger + Send,
    B: Ledger + Send,
    C: NodeLedger + Send,
    D: Ledger + Send,
    E: NodeLedger + Send,
    F: Ledger + Send,
    G: NodeLedger + Send,
    H: Ledger + Send,
    I: NodeLedger + Send,
    J: Ledger + Send,
    K: NodeLedger + Send,
    L: Ledger + Send,
    M: NodeLedger + Send,
    N2: Ledger + Send,
    O: NodeLedger + Send,
    P: Ledger + Send,
    R: Read + Send + Drop,
    Q: Threads + Wait + Clock + Sync,
    N: Watch + Sync,
>(
    rt: &Q,
    alloc: Global,
    order: Order<R>,
    watch: &N,
    seat_0: (Blank, Blank),
    seat_1: (Blank, Blank),
    seat_2: (Blank, Blank),
    seat_3: (Blank, Blank),
    seat_4: (Blank, Blank),
    seat_5: (Blank, Blank),
    seat_6: (Blank, Blank),
    seat_7: (Blank, Blank),
) -> Result<Vec<u8>, Failure>
    requires schema { order.spec ≡ A.schema }
    requires query { MadeFor A.schema (asked (box_value order.query)) }
    requires matching { is_matching (asked (box_value order.query)) ≡ true }
    requires files { length order.files.items ≤ 6 }
    requires seat_0 { (seat_0.0.name ≡ A.name) × (seat_0.0.parts ≡ A.parts) × (0 < A.parts) × (seat_0.1.name ≡ B.name) × (seat_0.1.parts ≡ B.parts) × (0 < B.parts) }
    requires seat_1 { (seat_1.0.name ≡ C.name) × (seat_1.0.parts ≡ C.parts) × (0 < C.parts) × (seat_1.1.name ≡ D.name) × (seat_1.1.parts ≡ D.parts) × (0 < D.parts) }
    requires seat_2 { (seat_2.0.name ≡ E.name) × (seat_2.0.parts ≡ E.parts) × (0 < E.parts) × (seat_2.1.name ≡ F.name) × (seat_2.1.parts ≡ F.parts) × (0 < F.parts) }
    requires seat_3 { (seat_3.0.name ≡ G.name) × (seat_3.0.parts ≡ G.parts) × (0 < G.parts) × (seat_3.1.name ≡ H.name) × (seat_3.1.parts ≡ H.parts) × (0 < H.parts) }
    requires seat_4 { (seat_4.0.name ≡ I.name) × (seat_4.0.parts ≡ I.parts) × (0 < I.parts) × (seat_4.1.name ≡ J.name) × (seat_4.1.parts ≡ J.parts) × (0 < J.parts) }
    requires seat_5 { (seat_5.0.name ≡ K.name) × (seat_5.0.parts ≡ K.parts) × (0 < K.parts) × (seat_5.1.name ≡ L.name) × (seat_5.1.parts ≡ L.parts) × (0 < L.parts) }
    requires seat_6 { (seat_6.0.name ≡ M.name) × (seat_6.0.parts ≡ M.parts) × (0 < M.parts) × (seat_6.1.name ≡ N2.name) × (seat_6.1.parts ≡ N2.parts) × (0 < N2.parts) }
    requires seat_7 { (seat_7.0.name ≡ O.name) × (seat_7.0.parts ≡ O.parts) × (0 < O.parts) × (seat_7.1.name ≡ P.name) × (seat_7.1.parts ≡ P.parts) × (0 < P.parts) }
    ensures { IfOk result (λ text. TellsRaw A.schema (asked (box_value order.query)) text.items) }
{
    of_pairs::<
        OneSeat<A, B>,
        OneSeat<C, D>,
        OneSeat<E, F>,
        OneSeat<G, H>,
        OneSeat<I, J>,
        OneSeat<K, L>,
        OneSeat<M, N2>,
        OneSeat<O, P>,
        R,
        Q,
        N,
    >(
        rt,
        alloc,
        order,
        watch,
        (seat_0, seat_1),
        (seat_2, seat_3),
        (seat_4, seat_5),
        (seat_6, seat_7),
    )
}

// Of eight, by pairs.
fn of_pairs<
    S: Books,
    T: Books,
    U: Books,
    V: Books,
    W: Books,
    X: Books,
    Y: Books,
    Z: Books,
    R: Read + Send + Drop,
    Q: Threads + Wait + Clock + Sync,
    N: Watch + Sync,
>(
    rt: &Q,
    alloc: Global,
    order: Order<R>,
    watch: &N,
    first: (S::Blanks, T::Blanks),
    second: (U::Blanks, V::Blanks),
    third: (W::Blanks, X::Blanks),
    fourth: (Y::Blanks, Z::Blanks),
) -> Result<Vec<u8>, Failure>
    requires schema { order.spec ≡ S.schema }
    requires query { MadeFor S.schema (asked (box_value order.query)) }
    requires matching { is_matching (asked (box_value order.query)) ≡ true }
    requires files { length order.files.items ≤ 6 }
    requires first { S.are_blank first.0 × T.are_blank first.1 }
    requires second { U.are_blank second.0 × V.are_blank second.1 }
    requires third { W.are_blank third.0 × X.are_blank third.1 }
    requires fourth { Y.are_blank fourth.0 × Z.are_blank fourth.1 }
    requires seats { ((S.seats + T.seats) + (U.seats + V.seats)) + ((W.seats + X.seats) + (Y.seats + Z.seats)) ≡ 8 }
    ensures { IfOk result (λ text. TellsRaw S.schema (asked (box_value order.query)) text.items) }
{
    of_four::<Joined<S, T>, Joined<U, V>, Joined<W, X>, Joined<Y, Z>, R, Q, N>(
        rt,
        alloc,
        order,
        watch,
        (first, second),
        (third, fourth),
    )
}

// Of four.
fn of_four<
    S: Books,
    T: Books,
    U: Books,
    V: Books,
    R: Read + Send + Drop,
    Q: Threads + Wait + Clock + Sync,
    N: Watch + Sync,
>(
    rt: &Q,
    alloc: Global,
    order: Order<R>,
    watch: &N,
    first: (S::Blanks, T::Blanks),
    second: (U::Blanks, V::Blanks),
) -> Result<Vec<u8>, Failure>
    requires schema { order.spec ≡ S.schema }
    requires query { MadeFor S.schema (asked (box_value order.query)) }
    requires matching { is_matching (asked (box_value order.query)) ≡ true }
    requires files { length order.files.items ≤ 6 }
    requires first { S.are_blank first.0 × T.are_blank first.1 }
    requires second { U.are_blank second.0 × V.are_blank second.1 }
    requires seats { (S.seats + T.seats) + (U.seats + V.seats) ≡ 8 }
    ensures { IfOk result (λ text. TellsRaw S.schema (asked (box_value order.query)) text.items) }
{
    of_two::<Joined<S, T>, Joined<U, V>, R, Q, N>(rt, alloc, order, watch, (first, second))
}

// Of two books joined.
fn of_two<
    S: Books,
    T: Books,
    R: Read + Send + Drop,
    Q: Threads + Wait + Clock + Sync,
    N: Watch + Sync,
>(
    rt: &Q,
    alloc: Global,
    order: Order<R>,
    watch: &N,
    blanks: (S::Blanks, T::Blanks),
) -> Result<Vec<u8>, Failure>
    requires schema { order.spec ≡ S.schema }
    requires query { MadeFor S.schema (asked (box_value order.query)) }
    requires matching { is_matching (asked (box_value order.query)) ≡ true }
    requires files { length order.files.items ≤ 6 }
    requires blanks { S.are_blank blanks.0 × T.are_blank blanks.1 }
    requires seats { S.seats + T.seats ≡ 8 }
    ensures { IfOk result (λ text. TellsRaw S.schema (asked (box_value order.query)) text.items) }
{
    of_books::<Joined<S, T>, R, Q, N>(rt, alloc, order, watch, blanks)
}

// Of books.
fn of_books<B: Books, R: Read + Send + Drop, Q: Threads + Wait + Clock + Sync, N: Watch + Sync>(
    rt: &Q,
    alloc: Global,
    order: Order<R>,
    watch: &N,
    blanks: B::Blanks,
) -> Result<Vec<u8>, Failure>
    requires schema { order.spec ≡ B.schema }
    requires query { MadeFor B.schema (asked (box_value order.query)) }
    requires matching { is_matching (asked (box_value order.query)) ≡ true }
    requires files { length order.files.items ≤ 6 }
    requires blanks { B.are_blank blanks }
    requires seats { B.seats ≡ 8 }
    ensures { IfOk result (λ text. TellsRaw B.schema (asked (box_value order.query)) text.items) }
{
    let Order {
        spec,
        query,
        files,
        workers,
    } = order;
    let (node, seats, spec) = opened::<B>(alloc, spec, blanks)?;
    load_into(rt, alloc, node, seats, &spec, &query, files, workers, watch)
}

// A node of the books with its seats, and the spec once more.
fn opened<B: Books>(
    alloc: Global,
    spec: IngestSpec,
    blanks: B::Blanks,
) -> Result<(Node<B>, Vec<Seat<B>>, IngestSpec), AllocError>
    requires schema { spec ≡ B.schema }
    requires blanks { B.are_blank blanks }
    requires seats { B.seats ≡ 8 }
    ensures seats { IfOk result (λ r. length r.1.items ≡ 8) }
    ensures spec { IfOk result (λ r. r.2 ≡ B.schema) }
{
    let copy = spec.copy()?;
    let (node, seats) = Node::<B>::new(alloc, spec, blanks)?;
    Ok((node, seats, copy))
}
