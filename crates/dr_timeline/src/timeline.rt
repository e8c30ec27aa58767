ghost use Rattle.std.specs.Prelude.{◌≡◌, ◌<◌, ◌≤◌, ◌↔◌, ◌⊎◌, ℕ, true, [], length, map, OnOk, OnErr, IfOk, IfErr, IsErrOf};
ghost use Rattle.dr_timeline.specs.declared.timeline_error.TimelineError.TheVariants.{NoMemory, StreamFull, NothingToSeal, NoSuchRange, Stale, CommitsFull};
ghost use Rattle.dr_cuts.specs.State.{State, AreCuts, empty_state, sealed_in};
ghost use Rattle.std.specs.List.{AllByRecursion};
ghost use Rattle.dr_timeline.specs.Steps.{accepted, sealed_at, open_in, job_of, StandsAt, Commits, HasVersions};
ghost use Rattle.dr_timeline.specs.Stepping.{accept, seal, plan, commit};
ghost use Rattle.dr_timeline.specs.Refusal.{is_memory};
ghost use Rattle.dr_base.specs.Reading.{GivesUnless};
ghost use Rattle.dr_timeline.specs.Noted.{noted, stats};
ghost use Rattle.dr_timeline.specs.Imaging.{image_at};
ghost use Rattle.dr_timeline.specs.Order.{HaveFewRows};
ghost use Rattle.dr_merge.specs.Joined.{joined_fragment, IsJobOf};
ghost use Rattle.dr_cuts.specs.Segments.{pinned};
ghost use Rattle.dr_schema.specs.Fits.{FitsSchema};
ghost use Rattle.dr_schema.specs.WellFormed.{IsWellFormed};

use crate::chunk_of::chunk_start;
use crate::imaging::image_of;
use crate::known_texts::known_texts;
use crate::outcome::Outcome;
use crate::planned::{job_over, place_of_job};
use crate::snapshot::Snapshot;
use crate::stats::Stats;
use crate::timeline_error::TimelineError;
use crate::versioning::{publications_after, version_for};
use dr_base::Event;
use dr_chunks::{Chunks, SealedRange, Stream};
use dr_fragment::{Fragment, Fragments, SharedEvent, SharedFragment};
use dr_merge::{Job, Purpose};
use dr_spec::IngestSpec;
use std::alloc::{AllocError, Global};
use std::marker::Model;

/// The accepted events of a data source, in order, and the ranges that the list of each chunk is cut into. A contract sees
/// its schema, the list of its events, where each chunk is cut, how many seals and commits there were, and how many inputs were
/// noted.
#[derive(Drop)]
pub struct Timeline {
    spec: IngestSpec,
    stream: Stream,
    chunks: Chunks,
    seals: u64,
    commits: u64,
    unparseable: u64,
    thrown_away: u64,
}

impl Model for Timeline {
    ghost use Rattle.std.specs.Prelude.{map, ◌+◌};
    ghost use Rattle.dr_cuts.specs.State.{State};
    ghost use Rattle.dr_chunks.specs.Held.{cut_of};
    ghost use Rattle.dr_timeline.specs.Kept.{Keeps};

    ghost Value = { State };

    ghost view = { λ t. record { schema = t.spec; stream = t.stream.items; cuts = map cut_of t.chunks; serials = t.seals + t.commits; commits = t.commits; unparseable = t.unparseable; thrown_away = t.thrown_away } };

    ghost invariant = { λ t. Keeps t.spec t.stream.items t.chunks t.seals t.commits };
}

impl Timeline {
    /// A timeline with no event yet. The only error is that memory ran out. It takes constant time, and no memory before the first
    /// event.
    pub fn new(alloc: Global, spec: IngestSpec) -> Result<Timeline, AllocError>
        ensures empty { IfOk result (λ timeline. timeline ≡ empty_state spec) }
        ensures well_formed { IfOk result (λ timeline. IsWellFormed timeline.schema) }
    {
        // The contract of this call says that the schema is well formed.
        let _ = spec.schema();
        Ok(Timeline {
            spec,
            stream: Stream::new(alloc),
            chunks: Chunks::new(alloc),
            seals: 0,
            commits: 0,
            unparseable: 0,
            thrown_away: 0,
        })
    }

    /// The spec that the timeline was made for.
    pub fn spec(&self) -> &IngestSpec
        ensures { result.now ≡ self.now.schema }
    {
        &self.spec
    }

    /// Does nothing. Its contract says what holds of each timeline, whatever its steps were: its ranges tile the list of each
    /// chunk, and each open range has fewer rows than the spec's `maxRowsInMemory`.
    pub fn in_order(&self)
        ensures cuts { AreCuts self.now.schema self.now.stream self.now.cuts }
        ensures few { HaveFewRows self.now.schema self.now.stream self.now.cuts }
    {
        let _ = &self.spec;
    }

    /// Whether an event of the data source is kept, which each one is.
    pub fn keeps(&self, _event: &Event) -> bool
        ensures { result ≡ true }
    {
        true
    }

    /// Accepts an event that fits the schema, and answers its number in the stream, from 0. Where the open range of its
    /// chunk then has as many rows as the spec's `maxRowsInMemory`, the range is sealed in the same step. An error leaves
    /// the timeline as it was. Refusals: 90 `StreamFull` exactly where as many events are retained as the spec's
    /// `maxRetained`; elsewhere 0 `NoMemory`. It takes what [`Timeline::accept_shared`] takes, and memory for a share of the event.
    pub fn accept(&mut self, event: Event) -> Result<u64, TimelineError>
        requires { FitsSchema self.old.schema event }
        ensures number { IfOk result (λ n. n ≡ length self.old.stream) }
        ensures ok { OnOk result (self.new ≡ accepted self.old event) }
        ensures err { OnErr result (self.new ≡ self.old) }
        ensures full { IsErrOf result StreamFull ↔ (self.old.schema.limits.max_retained ≤ length self.old.stream) }
        ensures refusals { IfErr result (λ e. (e ≡ NoMemory) ⊎ (e ≡ StreamFull)) }
        ensures step { GivesUnless is_memory (λ n. (n, self.new)) result (accept self.old event) }
    {
        if self.stream.len() >= self.spec.schema().limits().max_retained {
            return Err(TimelineError::StreamFull);
        }
        let event = SharedEvent::new(self.stream.allocator(), event)?;
        self.accept_shared(event)
    }

    /// The same of an event that whoever sent it shares. It takes time by the bytes of its texts, mostly, and a logarithm of the chunk's
    /// open rows more where the hashes of many keys are alike; and where another share of these rows is held, time by them.
    pub fn accept_shared(&mut self, event: SharedEvent) -> Result<u64, TimelineError>
        requires { FitsSchema self.old.schema event }
        ensures number { IfOk result (λ n. n ≡ length self.old.stream) }
        ensures ok { OnOk result (self.new ≡ accepted self.old event) }
        ensures err { OnErr result (self.new ≡ self.old) }
        ensures full { IsErrOf result StreamFull ↔ (self.old.schema.limits.max_retained ≤ length self.old.stream) }
        ensures refusals { IfErr result (λ e. (e ≡ NoMemory) ⊎ (e ≡ StreamFull)) }
        ensures step { GivesUnless is_memory (λ n. (n, self.new)) result (accept self.old event) }
    {
        let schema = self.spec.schema();
        let number = self.stream.len();
        let limits = schema.limits();
        if number >= limits.max_retained {
            return Err(TimelineError::StreamFull);
        }
        let alloc = self.stream.allocator();
        let read = event.event();
        let start = chunk_start(schema, read);
        known_texts(read);
        self.stream.reserve()?;
        let serial = self.seals + self.commits;
        let seals = self.chunks.grow(alloc, schema, serial, start, read)?;
        self.seals += seals;
        self.stream.push(event);
        Ok(number as u64)
    }

    /// Counts an input that became no event. A counter stays at 2^64 - 1 once it is there. It takes no memory.
    pub fn note(&mut self, outcome: Outcome)
        ensures { self.new ≡ noted outcome self.old }
    {
        match outcome {
            Outcome::Unparseable => self.unparseable = self.unparseable.saturating_add(1),
            Outcome::ThrownAway => self.thrown_away = self.thrown_away.saturating_add(1),
        }
    }

    /// How many events were accepted, and how many inputs were noted. An event that was refused is in no counter.
    pub fn stats(&self) -> Stats
        ensures { result ≡ stats self.now }
    {
        Stats {
            processed: self.stream.len() as u64,
            unparseable: self.unparseable,
            thrown_away: self.thrown_away,
        }
    }

    /// Seals the open range of a chunk, which is named by its start in milliseconds since the epoch. An error leaves the
    /// timeline as it was. Refusals: 91 `NothingToSeal` exactly where that range has no event; elsewhere 0 `NoMemory`. It reads no
    /// row: it takes time logarithmic in the number of chunks, and memory for a range's place in a list.
    pub fn seal(&mut self, chunk: i64) -> Result<(), TimelineError>
        ensures ok { OnOk result (self.new ≡ sealed_at chunk self.old) }
        ensures err { OnErr result (self.new ≡ self.old) }
        ensures nothing { IsErrOf result NothingToSeal ↔ (open_in self.old chunk ≡ []) }
        ensures refusals { IfErr result (λ e. (e ≡ NoMemory) ⊎ (e ≡ NothingToSeal)) }
        ensures step { GivesUnless is_memory (λ _. self.new) result (seal self.old chunk) }
    {
        let alloc = self.stream.allocator();
        let serial = self.seals + self.commits;
        let Some(there) = self.chunks.get(chunk) else {
            return Err(TimelineError::NothingToSeal);
        };
        if !there.has_open() {
            return Err(TimelineError::NothingToSeal);
        }
        self.chunks.seal(alloc, chunk, serial)?;
        self.seals += 1;
        Ok(())
    }

    /// A job over the sealed ranges of a chunk at the places from `lo` to before `hi`, in the order in which they stand
    /// now. The chunk is named by its start in milliseconds since the epoch. Refusals: 92 `NoSuchRange` exactly where
    /// these places name no sealed ranges, or none; elsewhere 0 `NoMemory`. Each job can be worked on. It takes time and memory by
    /// the ranges that are named, and copies no row.
    pub fn plan(
        &self,
        chunk: i64,
        lo: usize,
        hi: usize,
        purpose: Purpose,
    ) -> Result<Job, TimelineError>
        ensures job { IfOk result (λ job. job ≡ job_of self.now chunk lo hi purpose) }
        ensures no_range { IsErrOf result NoSuchRange ↔ ((lo < hi) × (hi ≤ length (sealed_in chunk self.now.cuts)) → ⊥) }
        ensures workable { IfOk result (λ job. IsJobOf self.now.schema job) }
        ensures refusals { IfErr result (λ e. (e ≡ NoMemory) ⊎ (e ≡ NoSuchRange)) }
        ensures step { GivesUnless is_memory (λ job. job) result (plan self.now chunk lo hi purpose) }
    {
        let alloc = self.stream.allocator();
        let Some(there) = self.chunks.get(chunk) else {
            return Err(TimelineError::NoSuchRange);
        };
        let sealed = there.sealed.as_slice();
        if lo >= hi || hi > sealed.len() {
            return Err(TimelineError::NoSuchRange);
        }
        Ok(job_over(alloc, chunk, &sealed[lo..hi], purpose)?)
    }

    /// Puts the fragment that the inputs of a job are joined to in the place of their ranges, wherever these stand by now,
    /// and answers its version: a job to publish raises the number of the chunk's publications by one, which is the version, and a
    /// job to merge gives the least version of the ranges, 0 where one of them isn't published. An error leaves the timeline as it was,
    /// and lets the fragment go. Refusals: 93 `Stale` exactly where the job's ranges don't stand next to each other any more, with its
    /// serials and rows; then 95 `CommitsFull` exactly where there were as many commits as the spec's `maxCommits`; elsewhere 0
    /// `NoMemory`. It takes time by the sealed ranges of the chunk, and where these have the job's serials what comparing their rows
    /// takes: constant time for shares of the same index, else time by the rows or the bytes of their images.
    pub fn commit(&mut self, job: &Job, fragment: Fragment) -> Result<u64, TimelineError>
        requires { fragment ≡ joined_fragment self.old.schema job.now }
        ensures ok { IfOk result (λ version. Commits self.old job.now version self.new) }
        ensures err { OnErr result (self.new ≡ self.old) }
        ensures stale { IsErrOf result Stale ↔ ((place : ℕ) → StandsAt self.old job.now place → ⊥) }
        ensures full { IsErrOf result CommitsFull ↔ (((place : ℕ) × StandsAt self.old job.now place) × (self.old.schema.limits.max_commits ≤ self.old.commits)) }
        ensures refusals { IfErr result (λ e. (e ≡ NoMemory) ⊎ (e ≡ Stale) ⊎ (e ≡ CommitsFull)) }
        ensures step { GivesUnless is_memory (λ version. (version, self.new)) result (commit self.old job.now) }
    {
        let alloc = self.stream.allocator();
        let Some(there) = self.chunks.get(job.chunk) else {
            return Err(TimelineError::Stale);
        };
        let sealed = there.sealed.as_slice();
        let Some(place) = place_of_job(sealed, job) else {
            return Err(TimelineError::Stale);
        };
        let limits = self.spec.schema().limits();
        if self.commits >= limits.max_commits {
            return Err(TimelineError::CommitsFull);
        }
        let count = job.inputs.len();
        let publications = publications_after(job.purpose, there.publications);
        let version = version_for(job.purpose, publications, &sealed[place..place + count]);
        let range = SealedRange {
            serial: self.seals + self.commits,
            version,
            fragment: SharedFragment::new(alloc, fragment)?,
        };
        self.chunks
            .replace(job.chunk, place, count, publications, range);
        self.commits += 1;
        Ok(version)
    }

    /// The image of the sealed range of a chunk at a place, from 0, in the order in which the ranges stand now: the bytes of a
    /// segment, as `SegmentView` of `dr_image` reads them. The chunk is named by its start in milliseconds since the epoch. A range
    /// that was merged or published is an image, whose bytes are copied; of one that was only sealed the image is written, which
    /// takes what `encode` of `dr_segment` says. Refusals: 92 `NoSuchRange` exactly where the chunk has no sealed range at that place,
    /// and then 59 `ImageTooLarge` exactly where the image has more bytes than the spec's `maxImageBytes`.
    pub fn image(&self, chunk: i64, place: usize) -> Result<Vec<u8>, TimelineError>
        ensures { GivesUnless is_memory (λ bytes. bytes.items) result (image_at self.now chunk place) }
    {
        let Some(there) = self.chunks.get(chunk) else {
            return Err(TimelineError::NoSuchRange);
        };
        let Some(range) = there.sealed.as_slice().get(place) else {
            return Err(TimelineError::NoSuchRange);
        };
        let alloc = self.stream.allocator();
        image_of(alloc, self.spec.schema(), &range.fragment)
    }

    /// What holds of each timeline, whatever steps made it: no range has a version over the number of its chunk's publications. It
    /// does nothing.
    pub fn versions_are_publications(&self)
        ensures { AllByRecursion HasVersions self.now.cuts }
    {
        // The type says so of what it keeps.
        let _commits = self.commits;
    }

    /// A snapshot of what was accepted so far, and of the ranges as they are now, which no later step changes. The timeline
    /// stays as it was. No row is copied: the snapshot takes a share of each range, open ones too, and the next event in a
    /// chunk copies its open rows first where a snapshot still has them. It takes time and memory by the ranges, and for less
    /// than a block of events. The only error is that memory ran out.
    pub fn pin(&mut self) -> Result<Snapshot, AllocError>
        ensures pinned { IfOk result (λ snapshot. snapshot ≡ pinned self.old) }
        ensures same { self.new ≡ self.old }
    {
        let alloc = self.stream.allocator();
        let mut fragments = Fragments::new(alloc);
        let mut ranges = Vec::new(alloc);
        self.chunks.pin(alloc, &mut fragments, &mut ranges)?;
        Ok(Snapshot {
            schema: self.spec.schema().copy()?,
            stream: self.stream.share()?,
            fragments,
            ranges,
        })
    }
}
