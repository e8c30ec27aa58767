ghost use Rattle.std.specs.Prelude.{◌≡◌, ◌<◌, ◌↔◌, ◌++◌, IfErr, IsTrue, List, true, length, map, option_map, slice_get};
ghost use Rattle.dr_base.specs.declared.event.Event.{Event};
ghost use Rattle.dr_answers.specs.AnswerRefusal.{Answers};
ghost use Rattle.dr_answers.specs.Answer.{answer};
ghost use Rattle.dr_answers.specs.Span.{span};
ghost use Rattle.dr_ask.specs.Asked.{asked};
ghost use Rattle.dr_ask.specs.Matching.{is_matching};
ghost use Rattle.dr_ask.specs.MadeFor.{MadeFor};
ghost use Rattle.dr_rollup.specs.Unrolled.{unrolled};
ghost use Rattle.dr_cuts.specs.Segments.{rows_of};
ghost use Rattle.dr_cuts.specs.RawAnswer.{raw_answer};
ghost use Rattle.dr_timeline.specs.AskRefusal.{AnswersUnless, HasThreads};
ghost use Rattle.dr_timeline.specs.Order.{AreRangesOf};

use crate::answering::{answer, told};
use crate::ask_error::AskError;
use crate::scattering::partial_by;
use crate::span::span_of;
use dr_answers::AnswerError;
use dr_ask::Query;
use dr_base::Event;
use dr_chunks::Stream;
use dr_cuts::RangeInfo;
use dr_fragment::Fragments;
use dr_partial::Partial;
use dr_schema::Schema;
use dr_workers::{Gate, scatter_one};
use std::marker::Model;
use std::sync::Wait;
use std::thread::Threads;

/// The events that were accepted before a pin, in order, and the ranges that their chunks were cut into. No later step
/// changes it. A contract sees its schema, the list of its events, and the ranges.
#[derive(Drop)]
pub struct Snapshot {
    pub(crate) schema: Schema,
    pub(crate) stream: Stream,
    pub(crate) fragments: Fragments,
    pub(crate) ranges: Vec<RangeInfo>,
}

impl Model for Snapshot {
    ghost use Rattle.dr_cuts.specs.Segments.{Pinned};
    ghost use Rattle.std.specs.Prelude.{map};
    ghost use Rattle.dr_timeline.specs.Shown.{Shows};

    ghost Value = { Pinned };

    ghost view = { λ s. record { schema = s.schema; stream = s.stream.items; ranges = s.ranges.items } };

    ghost invariant = { λ s. Shows s.schema s.stream.items (map (λ f. f.rows) s.fragments) s.ranges.items };
}

impl Snapshot {
    /// How many events there are.
    pub fn event_count(&self) -> usize
        ensures { result ≡ length self.now.stream }
    {
        self.stream.len()
    }

    /// The event of that number, from 0; none past the end.
    pub fn event(&self, number: u64) -> Option<&Event>
        ensures { option_map (λ e. e.now) result ≡ slice_get self.now.stream number }
    {
        let place = number as usize;
        if place < self.stream.len() {
            return Some(self.stream.at(place));
        }
        None
    }

    /// The ranges that the chunks were cut into: chunks rising, those of a chunk in order, the open one last where it has
    /// an event.
    pub fn ranges(&self) -> &[RangeInfo]
        ensures { result.now ≡ self.now.ranges }
    {
        self.ranges.as_slice()
    }

    /// From the least to the greatest truncated time of the events, both included, in milliseconds since the epoch; none
    /// where there is no event. It takes constant time, and no memory.
    pub fn span(&self) -> Option<(i64, i64)>
        ensures { result ≡ span (map (unrolled self.now.schema) self.now.stream) }
    {
        span_of(&self.schema, &self.stream)
    }

    /// Does nothing. Its contract says what holds of each snapshot, whoever pinned it: its ranges are those of some cuts of its
    /// events, and they tile the list of each chunk.
    pub fn in_order(&self)
        ensures { AreRangesOf self.now.schema self.now.stream self.now.ranges }
    {
        let _ = &self.schema;
    }

    /// Whether the events of the other snapshot are the first of this one's. It takes no memory, and time by the other's events and
    /// the bytes of their dimension values, up to the first that differs.
    pub fn extends(&self, other: &Snapshot) -> bool
        ensures { IsTrue result ↔ ((rest : List Event) × (self.now.stream ≡ other.now.stream ++ rest)) }
    {
        begins_with(&self.stream, &other.stream)
    }

    /// The answer to a query that was made for the schema, as JSON text without spaces, keys in ascending byte order: of a
    /// timeseries `[{"result":{..},"timestamp":".."}]`, of a groupBy `[{"event":{..},"timestamp":"..","version":"v1"}]`
    /// (Apache Druid documentation, timeseries and groupBy queries).
    ///
    /// Where the query matches, it is byte for byte the answer over the raw events, truncated, filtered, grouped and
    /// folded one by one, whatever the ranges. Refusals: 81 `ResultTooLarge` where there are over 100000 groups. It takes
    /// expected time by the rows and the bytes of their dimension values, and what sorting the groups takes; and memory by the
    /// groups, and what a query takes over each image. No row is copied.
    pub fn answer_one(&self, query: &Query) -> Result<Vec<u8>, AnswerError>
        requires { MadeFor self.now.schema (asked query.now) }
        ensures own_rows { Answers (λ text. text.items) result (answer (asked query.now) (rows_of self.now)) }
        ensures raw_where_matching { is_matching (asked query.now) ≡ true
            → Answers (λ text. text.items) result (raw_answer self.now.schema (asked query.now) self.now.stream) }
    {
        let alloc = self.stream.allocator();
        let partial = scatter_one(alloc, query, self.fragments.as_slice())?;
        answer(alloc, query, partial, self.span())
    }

    /// What [`Snapshot::answer_one`] answers, by so many workers, 1 to 16, each of which enters the gate before it works on a
    /// range. There are no more workers than ranges; with one worker, or fewer than two ranges, no thread is started.
    ///
    /// Where the query matches, it is byte for byte the answer over the raw events, truncated, filtered, grouped and
    /// folded one by one, whatever the ranges, the workers and the gate. Refusals: 80 `WorkerNotStarted` where the system
    /// refused a thread, and 81 `ResultTooLarge` where there are over 100000 groups. It takes the time of the slowest worker,
    /// of starting a thread for each, of merging and of the rest of `answer_one`, and memory by the groups that each worker found.
    #[tactic(auto, using(crate::proofs::Asking::lacking))]
    pub fn answer<R: Threads + Wait + Sync, G: Gate + Sync>(
        &self,
        rt: &R,
        query: &Query,
        workers: usize,
        gate: &G,
    ) -> Result<Vec<u8>, AskError>
        requires { MadeFor self.now.schema (asked query.now) }
        ensures own_rows { AnswersUnless (λ text. text.items) result (answer (asked query.now) (rows_of self.now)) }
        ensures raw_where_matching { is_matching (asked query.now) ≡ true
            → AnswersUnless (λ text. text.items) result (raw_answer self.now.schema (asked query.now) self.now.stream) }
        ensures alone { workers < 2 → IfErr result HasThreads }
        ensures few { length self.now.ranges < 2 → IfErr result HasThreads }
    {
        let alloc = self.stream.allocator();
        let groups = partial_by(rt, alloc, query, self.fragments.as_slice(), workers, gate)?;
        told(answer(alloc, query, groups, self.span()))
    }

    /// The answer to a query that was made for the schema over the raw events, each as a row of its own: truncated,
    /// filtered, grouped and folded one by one. Text, refusals and cost are those of `answer_one`, with the events in the
    /// place of the rows.
    pub fn audit(&self, query: &Query) -> Result<Vec<u8>, AnswerError>
        requires { MadeFor self.now.schema (asked query.now) }
        ensures { Answers (λ text. text.items) result (raw_answer self.now.schema (asked query.now) self.now.stream) }
    {
        let alloc = self.stream.allocator();
        let pieces = self.stream.pieces(alloc)?;
        let partial = Partial::of_events(alloc, query, &self.schema, &pieces)?;
        answer(alloc, query, partial, self.span())
    }
}

fn begins_with(events: &Stream, first: &Stream) -> bool
    ensures { IsTrue result ↔ ((rest : List Event) × (events.now.items ≡ first.now.items ++ rest)) }
{
    if events.len() < first.len() {
        return false;
    }
    for i in 0..first.len() {
        if !first.at(i).equals(events.at(i)) {
            return false;
        }
    }
    true
}
