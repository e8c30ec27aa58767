ghost use Rattle.std.specs.Prelude.{◌≡◌, ◌⊎◌, ◌==◌, ◌<◌, ◌↔◌, Err, IfOk, IfErr, IfSome, IsTrue, All, get_or, length, map};
ghost use Rattle.std.specs.List.{count_by, range_with_len};
ghost use Rattle.dr_timeline.specs.declared.timeline_error.TimelineError.TheVariants.{NoMemory};
ghost use Rattle.dr_node.specs.declared.node_error.NodeError.TheVariants as error;
ghost use Rattle.dr_node.specs.Seats.{marked};
ghost use Rattle.dr_node.specs.Closing.{AreAllSeats, IsClosed};
ghost use Rattle.dr_node.specs.Places.{ArePlaces, IsPlace};

use crate::closed::Closed;
use crate::node::Node;
use crate::node_error::NodeError;
use crate::seat::{Seat, event_at};
use dr_books::Books;
use dr_timeline::Snapshot;
use std::alloc::{AllocError, Global};

impl<B: Books> Node<B> {
    /// Closes the node, and gives its last snapshot and how many events each seat accepted: the events of the stream with the mark
    /// of a seat are those that the seat accepted, in its order. Refusals: 94 `HistoryMismatch` where the seats aren't all seats
    /// of the node, each once, or the events of a seat aren't those of the stream with its mark. It takes time by the events
    /// and by the square of the number of seats, and copies no event; memory for what `Timeline::pin` takes.
    pub fn close(self, seats: Vec<Seat<B>>) -> Result<Closed, NodeError>
        ensures closed { IfOk result (λ closed. IsClosed B.seats seats.items closed.snapshot.stream closed.mine.items) }
        ensures schema { IfOk result (λ closed. closed.snapshot.schema ≡ B.schema) }
        ensures not_all { (AreAllSeats B.seats seats.items → ⊥) → result ≡ Err error.HistoryMismatch }
        ensures refusals { IfErr result (λ e. (e ≡ error.Timeline NoMemory) ⊎ (e ≡ error.HistoryMismatch)) }
    {
        let Node {
            alloc,
            schema: _,
            seats: count,
            kept,
        } = self;
        if !are_all(count, &seats) {
            return Err(NodeError::HistoryMismatch);
        }
        let snapshot = kept.into_inner().last()?;
        let places = places(alloc, count, &seats)?;
        let Some(mine) = own_counts(alloc, &seats, places.as_slice(), &snapshot)? else {
            return Err(NodeError::HistoryMismatch);
        };
        Ok(Closed { snapshot, mine })
    }
}

// Whether the seats are all of so many, each once.
fn are_all<B: Books>(count: usize, seats: &[Seat<B>]) -> bool
    ensures { IsTrue result ↔ AreAllSeats count seats.now }
{
    if seats.len() != count {
        return false;
    }
    for number in 0..count {
        if times(number, seats) != 1 {
            return false;
        }
    }
    true
}

// How often the seat of that number is among the seats.
fn times<B: Books>(number: usize, seats: &[Seat<B>]) -> usize
    ensures { result ≡ count_by (λ s. s.number == number) seats.now }
{
    let mut times = 0;
    for seat in seats {
        if usize::from(seat.number()) == number {
            times += 1;
        }
    }
    times
}

// The place among the seats, which are all of so many, of the seat of each number.
fn places<B: Books>(
    alloc: Global,
    count: usize,
    seats: &[Seat<B>],
) -> Result<Vec<usize>, AllocError>
    requires { AreAllSeats count seats.now }
    ensures { IfOk result (λ places. ArePlaces count seats.now places.items) }
{
    let mut places = Vec::new(alloc);
    for number in 0..count {
        places.push(place(number, seats))?;
    }
    Ok(places)
}

// The place of the seat of that number among the seats, where it is there.
fn place<B: Books>(number: usize, seats: &[Seat<B>]) -> usize
    requires { count_by (λ s. s.number == number) seats.now ≡ 1 }
    ensures { IsPlace seats.now number result }
{
    let mut place = 0;
    while usize::from(seats[place].number()) != number {
        place += 1;
    }
    place
}

// How many events of the stream have the mark of each seat, where they are those that the seat accepted, in its order; none where
// they aren't. The events are read once: each is compared with the next one of its seat.
fn own_counts<B: Books>(
    alloc: Global,
    seats: &[Seat<B>],
    places: &[usize],
    snapshot: &Snapshot,
) -> Result<Option<Vec<u64>>, AllocError>
    requires all { AreAllSeats B.seats seats.now }
    requires places { ArePlaces B.seats seats.now places.now }
    requires marks { All (λ e. e.seat < B.seats) snapshot.now.stream }
    ensures counts { IfOk result (λ found. IfSome found (λ counts. counts.items ≡ map (λ k. length (marked k snapshot.now.stream)) (range_with_len 0 B.seats))) }
    ensures own { IfOk result (λ found. IfSome found (λ counts. All (λ s. marked s.number snapshot.now.stream ≡ s.own) seats.now)) }
    ensures seats { IfOk result (λ found. IfSome found (λ counts. All (λ s. (s.mine ≡ length s.own) × (s.number < B.seats)) seats.now)) }
{
    let mut counts = vec![in alloc; 0u64; places.len()]?;
    for number in 0..snapshot.event_count() {
        let event = event_at(snapshot, number);
        let mark = usize::from(event.seat);
        if !seats[places[mark]].has_at(event, counts[mark]) {
            return Ok(None);
        }
        counts[mark] += 1;
    }
    if !have_no_more(seats, counts.as_slice()) {
        return Ok(None);
    }
    Ok(Some(counts))
}

// Whether each seat accepted as many events as are counted at its number.
fn have_no_more<B: Books>(seats: &[Seat<B>], counts: &[u64]) -> bool
    requires { length counts.now ≡ B.seats }
    ensures counts { IsTrue result → All (λ s. get_or counts.now s.number 0 ≡ length s.own) seats.now }
    ensures seats { IsTrue result → All (λ s. (s.mine ≡ length s.own) × (s.number < B.seats)) seats.now }
{
    for seat in seats {
        if !seat.has_accepted(counts) {
            return false;
        }
    }
    true
}
