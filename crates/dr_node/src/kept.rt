ghost use Rattle.std.specs.Prelude.{◌≡◌, ◌+◌, ◌<◌, ◌≤◌, ◌⊎◌, true, replicate, length, All, IfOk, IfErr, OnOk, OnErr};
ghost use Rattle.dr_cuts.specs.State.{empty_state};
ghost use Rattle.dr_timeline.specs.declared.timeline_error.TimelineError.TheVariants.{NoMemory, StreamFull};
ghost use Rattle.dr_schema.specs.Fits.{FitsSchema};
ghost use Rattle.dr_node.specs.Seats.{marked};
ghost use Rattle.dr_node.specs.Acting.{IsActed};

use crate::act::Act;
use dr_books::Books;
use dr_cuts::answers_over_cuts;
use dr_timeline::{SharedEvent, Snapshot, Timeline, TimelineError};
use std::alloc::AllocError;
use std::marker::Model;

/// What lies behind the lock of a node: the timeline, and the books of its seats. A contract sees the timeline, and for each
/// seat how many events it accepted and how many of the stream it has seen.
#[derive(Drop)]
pub(crate) struct Kept<B: Books> {
    timeline: Timeline,
    books: B,
}

impl<B: Books> Model for Kept<B> {
    ghost use Rattle.dr_node.specs.Kept.{Held, IsKept};

    ghost Value = { Held };

    ghost view = { λ k. record { timeline = k.timeline; mine = B.mine k.books; floor = B.floor k.books } };

    ghost invariant = { λ k. IsKept B.schema B.seats (record { timeline = k.timeline; mine = B.mine k.books; floor = B.floor k.books }) };
}

impl<B: Books> Kept<B> {
    /// A timeline without events beside books that were just opened.
    pub(crate) fn new(timeline: Timeline, books: B) -> Kept<B>
        requires timeline { timeline ≡ empty_state B.schema }
        requires mine { B.mine books ≡ replicate B.seats 0 }
        requires floor { B.floor books ≡ replicate B.seats 0 }
    {
        Kept { timeline, books }
    }

    /// Accepts an event of the seat that has this share, and has seen so many events. It answers how many events there are then.
    pub(crate) fn accept(
        &mut self,
        share: &mut B::Share,
        floor: u64,
        event: SharedEvent,
    ) -> Result<u64, TimelineError>
        requires whole { B.is_whole share.old ≡ true }
        requires place { B.place share.old ≡ event.seat }
        requires floor { B.own_floor share.old ≡ floor }
        requires fits { FitsSchema B.schema event }
        ensures more { IfOk result (λ count. floor < count) }
        ensures bound { IfOk result (λ count. count ≤ B.schema.limits.max_retained) }
        ensures mine { OnOk result (B.own_mine share.new ≡ B.own_mine share.old + 1) }
        ensures seen { IfOk result (λ count. B.own_floor share.new ≡ count) }
        ensures err { OnErr result ((B.own_mine share.new ≡ B.own_mine share.old) × (B.own_floor share.new ≡ floor)) }
        ensures place { B.place share.new ≡ B.place share.old }
        ensures whole { B.is_whole share.new ≡ true }
        ensures refusals { IfErr result (λ e. (e ≡ NoMemory) ⊎ (e ≡ StreamFull)) }
    {
        self.books.add(share, 0, 0);
        self.timeline.accept_shared(event)?;
        self.timeline.in_order();
        self.timeline.versions_are_publications();
        let count = self.timeline.stats().processed;
        self.books.add(share, 1, count - floor);
        Ok(count)
    }

    /// A snapshot for the seat that has this share, and has seen so many events.
    pub(crate) fn pin(&mut self, share: &mut B::Share, floor: u64) -> Result<Snapshot, AllocError>
        requires whole { B.is_whole share.old ≡ true }
        requires floor { B.own_floor share.old ≡ floor }
        ensures schema { IfOk result (λ snapshot. snapshot.schema ≡ B.schema) }
        ensures marks { IfOk result (λ snapshot. All (λ e. e.seat < B.seats) snapshot.stream) }
        ensures own { IfOk result (λ snapshot. length (marked (B.place share.old) snapshot.stream) ≡ B.own_mine share.old) }
        ensures floor { IfOk result (λ snapshot. floor ≤ length snapshot.stream) }
        ensures seen { IfOk result (λ snapshot. B.own_floor share.new ≡ length snapshot.stream) }
        ensures err { OnErr result (B.own_floor share.new ≡ floor) }
        ensures mine { B.own_mine share.new ≡ B.own_mine share.old }
        ensures place { B.place share.new ≡ B.place share.old }
        ensures whole { B.is_whole share.new ≡ true }
    {
        self.books.add(share, 0, 0);
        let snapshot = self.timeline.pin()?;
        let count = snapshot.event_count() as u64;
        self.books.add(share, 0, count - floor);
        Ok(snapshot)
    }

    /// Makes an act on the timeline.
    pub(crate) fn apply<T: Act>(&mut self, act: T) -> T::Answer
        requires { T.needs act B.schema }
        ensures { IsActed B.schema B.seats (T.does act) result self.old self.new }
    {
        let answer = act.act(&mut self.timeline);
        self.timeline.in_order();
        self.timeline.versions_are_publications();
        answers_over_cuts();
        answer
    }

    /// The last snapshot.
    pub(crate) fn last(&mut self) -> Result<Snapshot, AllocError>
        ensures schema { IfOk result (λ snapshot. snapshot.schema ≡ B.schema) }
        ensures marks { IfOk result (λ snapshot. All (λ e. e.seat < B.seats) snapshot.stream) }
    {
        self.timeline.pin()
    }
}
