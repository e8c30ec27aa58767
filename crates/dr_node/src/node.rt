ghost use Rattle.std.specs.Prelude.{◌≡◌, ◌<◌, ◌≤◌, ◌⊎◌, true, length, All, IfOk, IfErr, OnErr};
ghost use Rattle.dr_schema.specs.Fits.{FitsSchema};
ghost use Rattle.dr_timeline.specs.declared.timeline_error.TimelineError.TheVariants.{NoMemory, StreamFull};
ghost use Rattle.dr_node.specs.declared.node_error.NodeError.TheVariants as error;
ghost use Rattle.dr_node.specs.Acting.{IsActed};
ghost use Rattle.dr_node.specs.Kept.{Held};
ghost use Rattle.dr_node.specs.Seats.{marked, new_seats, with_accepted, with_seen};

use crate::act::Act;
use crate::kept::Kept;
use crate::node_error::NodeError;
use crate::receipt::Receipt;
use crate::seat::Seat;
use crate::seating::seats_of;
use dr_base::Event;
use dr_books::Books;
use dr_schema::Schema;
use dr_spec::IngestSpec;
use dr_timeline::{SharedEvent, Snapshot, Timeline};
use std::alloc::{AllocError, Global};
use std::sync::{Mutex, MutexGuard, Wait};
use std::thread::yield_now;

/// How often a thread that finds the lock taken lets others run and looks again before it sleeps. Most steps take less than a
/// microsecond, and to be woken takes many.
const LOOKS: u32 = 100;

/// A timeline that many threads share, behind one lock. Its seats are those that came with it from `new`, which the type of its
/// books says; `B.schema` is its schema, and `B.seats` their number.
///
/// Each call holds the lock for one step of the timeline at most, and answers are worked out from snapshots, outside of it.
/// Nothing is promised of who gets the lock next.
#[derive(Drop)]
pub struct Node<B: Books> {
    pub(crate) alloc: Global,
    pub(crate) schema: Schema,
    pub(crate) seats: usize,
    pub(crate) kept: Mutex<Kept<B>>,
    ghost of_schema: { schema ≡ B.schema },
    ghost of_seats: { seats ≡ B.seats },
}

impl<B: Books> Node<B> {
    /// A node without events, with its seats in the order of their numbers. The blanks are those of the ledgers that name the
    /// books, two for each seat, and the spec is of the schema that the books name. The only error is that memory ran out. It
    /// takes time and memory by the seats.
    pub fn new(
        alloc: Global,
        spec: IngestSpec,
        blanks: B::Blanks,
    ) -> Result<(Node<B>, Vec<Seat<B>>), AllocError>
        requires schema { spec ≡ B.schema }
        requires blanks { B.are_blank blanks }
        requires seats { B.seats ≤ 8 }
        ensures { IfOk result (λ r. r.1.items ≡ new_seats B.seats) }
    {
        let schema = spec.schema().copy()?;
        let (books, shares) = B::open(alloc, blanks)?;
        let seats = seats_of(alloc, shares)?;
        let timeline = Timeline::new(alloc, spec)?;
        let node = Node {
            alloc,
            schema,
            seats: seats.len(),
            kept: Mutex::new(Kept::new(timeline, books)),
        };
        Ok((node, seats))
    }

    /// The schema of the node. It takes no memory.
    pub fn schema(&self) -> &Schema
        ensures { result.now ≡ B.schema }
    {
        &self.schema
    }

    /// Whether an event of the data source is kept, which each one is. It takes no memory.
    pub fn keeps(&self, _event: &Event) -> bool
        ensures { result ≡ true }
    {
        true
    }

    /// Accepts an event with the mark of the seat that fits the node's schema. The seat has then seen the stream up to that
    /// event, and keeps a share of it. An error leaves the node and the seat as they were. Refusals: 0 `NoMemory`, and 90
    /// `StreamFull` where as many events are retained as the spec's `maxRetained`. It may wait for the lock, and takes what
    /// `Timeline::accept_shared` takes, and memory for a share of the event in the seat's list.
    pub fn accept<R: Wait>(
        &self,
        rt: &R,
        seat: &mut Seat<B>,
        event: Event,
    ) -> Result<Receipt, NodeError>
        requires mark { event.seat ≡ seat.old.number }
        requires fits { FitsSchema B.schema event }
        ensures number { IfOk result (λ receipt. seat.old.floor ≤ receipt.number) }
        ensures below { IfOk result (λ receipt. receipt.number < B.schema.limits.max_retained) }
        ensures seat { IfOk result (λ receipt. seat.new ≡ with_accepted receipt.number event seat.old) }
        ensures err { OnErr result (seat.new ≡ seat.old) }
        ensures refusals { IfErr result (λ e. (e ≡ error.Timeline NoMemory) ⊎ (e ≡ error.Timeline StreamFull)) }
    {
        let event = SharedEvent::new(self.alloc, event)?;
        let own = event.share()?;
        seat.own.reserve(1)?;
        let floor = seat.floor;
        let answer = self.held(rt).accept(&mut seat.share, floor, event);
        let count = answer?;
        seat.own.push(own).unwrap();
        seat.floor = count;
        Ok(Receipt::new(count - 1))
    }

    /// A snapshot of what the node accepted so far, which no later step changes: of the seat's events it has all, and of the
    /// stream no less than the seat has seen. The only error is that memory ran out, and leaves the seat as it was. It may
    /// wait for the lock, and takes what `Timeline::pin` takes.
    pub fn pin<R: Wait>(&self, rt: &R, seat: &mut Seat<B>) -> Result<Snapshot, AllocError>
        ensures schema { IfOk result (λ snapshot. snapshot.schema ≡ B.schema) }
        ensures marks { IfOk result (λ snapshot. All (λ e. e.seat < B.seats) snapshot.stream) }
        ensures own { IfOk result (λ snapshot. length (marked seat.old.number snapshot.stream) ≡ seat.old.mine) }
        ensures floor { IfOk result (λ snapshot. seat.old.floor ≤ length snapshot.stream) }
        ensures seat { IfOk result (λ snapshot. seat.new ≡ with_seen (length snapshot.stream) seat.old) }
        ensures err { OnErr result (seat.new ≡ seat.old) }
    {
        let floor = seat.floor;
        let answer = self.held(rt).pin(&mut seat.share, floor);
        let snapshot = answer?;
        seat.floor = snapshot.event_count() as u64;
        Ok(snapshot)
    }

    /// Makes an act on the node's timeline, and gives its answer. Before it and after it the ranges tile the list of each chunk,
    /// open ranges have fewer rows than the spec's `maxRowsInMemory`, serials differ, no version is over the number of its chunk's
    /// publications, each event has the mark of a seat, and the counts of the seats are those of the stream. It changes no answer to a matching query. It may wait for the lock, and takes
    /// what the act takes.
    pub fn apply<R: Wait, T: Act>(&self, rt: &R, act: T) -> T::Answer
        requires { T.needs act B.schema }
        ensures { (old : Held) × (new : Held) × IsActed B.schema B.seats (T.does act) result old new }
    {
        self.held(rt).apply(act)
    }

    // What lies behind the lock, once it is free.
    fn held<R: Wait>(&self, rt: &R) -> MutexGuard<'_, Kept<B>> {
        for _ in 0..LOOKS {
            if let Some(held) = self.kept.try_lock() {
                return held;
            }
            yield_now();
        }
        self.kept.lock(rt)
    }
}
