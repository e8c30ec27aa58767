ghost use Rattle.std.specs.Prelude.{◌≡◌, ◌<◌, ◌↔◌, IsTrue, Some, get_or, length, slice_get};

use dr_base::Event;
use dr_books::Books;
use dr_timeline::{SharedEvent, Snapshot};
use std::marker::Model;

/// A seat of a node: whoever holds it accepts events with its mark and pins snapshots. A contract sees its number, how many
/// events it accepted, how many events of the stream it has seen, and the list of the events that it accepted.
///
/// It holds its share of the books that lie behind the node's lock, so that what it knows of itself is what these say, and
/// shares of its events. No two seats of a node are alike, and a seat that is dropped is gone.
#[derive(Drop)]
pub struct Seat<B: Books> {
    pub(crate) number: u8,
    pub(crate) own: Vec<SharedEvent>,
    pub(crate) floor: u64,
    pub(crate) share: B::Share,
}

impl<B: Books> Model for Seat<B> {
    ghost use Rattle.std.specs.Prelude.{◌≡◌, ◌<◌, length, true};
    ghost use Rattle.dr_node.specs.Seats.{SeatView};

    ghost Value = { SeatView };

    ghost view = { λ s. record { number = s.number; mine = length s.own.items; floor = s.floor; own = s.own.items } };

    ghost invariant = { λ s. (B.is_whole s.share ≡ true) × (B.place s.share ≡ s.number) × (B.own_mine s.share ≡ length s.own.items) × (B.own_floor s.share ≡ s.floor) × (s.number < B.seats) };
}

impl<B: Books> Seat<B> {
    /// The number of the seat, from 0, which is the mark of the events that it accepts. It takes no memory.
    pub fn number(&self) -> u8
        ensures { result ≡ self.now.number }
    {
        self.number
    }

    /// How many events the seat accepted. It takes no memory.
    pub fn mine(&self) -> u64
        ensures { result ≡ self.now.mine }
    {
        self.own.len() as u64
    }

    /// How many events of the stream the seat has seen: each later snapshot of it has no fewer. It takes no memory.
    pub fn floor(&self) -> u64
        ensures { result ≡ self.now.floor }
    {
        self.floor
    }

    /// Whether the event is the one that the seat accepted behind so many others.
    pub(crate) fn has_at(&self, event: &Event, place: u64) -> bool
        ensures { IsTrue result ↔ (slice_get self.now.own place ≡ Some event.now) }
    {
        match self.own.as_slice().get(place as usize) {
            Some(mine) => event.equals(mine.event()),
            None => false,
        }
    }

    /// Whether the seat accepted as many events as are counted at its number.
    pub(crate) fn has_accepted(&self, counts: &[u64]) -> bool
        requires { length counts.now ≡ B.seats }
        ensures count { IsTrue result ↔ (get_or counts.now self.now.number 0 ≡ length self.now.own) }
        ensures mine { self.now.mine ≡ length self.now.own }
        ensures number { self.now.number < B.seats }
    {
        counts[usize::from(self.number)] == self.own.len() as u64
    }
}

// The event of that number in a snapshot.
pub(crate) fn event_at(snapshot: &Snapshot, number: usize) -> &Event
    requires { number < length snapshot.now.stream }
    ensures { slice_get snapshot.now.stream number ≡ Some result.now }
{
    snapshot.event(number as u64).unwrap()
}
