ghost use Rattle.std.specs.Prelude.{◌≡◌, IfOk, IfSome, OnErr, option_map, slice_get};
ghost use Rattle.dr_base.specs.Reading.{GivesUnless};
ghost use Rattle.dr_schema.specs.Fits.{FitsSchema};
ghost use Rattle.dr_schema.specs.WellFormed.{IsWellFormed};
ghost use Rattle.dr_cuts.specs.Segments.{pinned};
ghost use Rattle.dr_timeline.specs.CoreState.{empty_core};
ghost use Rattle.dr_timeline.specs.Noted.{stats};
ghost use Rattle.dr_merge.specs.Joined.{IsJobOf};
ghost use Rattle.dr_core.specs.Refusal.{is_memory};
ghost use Rattle.dr_core.specs.Steps as step;
ghost use Rattle.dr_core.specs.Steps.{committed};

use crate::core_error::CoreError;
use dr_base::Event;
use dr_merge::{Job, Purpose, work};
use dr_spec::IngestSpec;
use dr_timeline::{Outcome, Snapshot, Stats, Timeline};
use std::alloc::{AllocError, Global};
use std::marker::Model;

/// A timeline with the jobs that were planned on it and the snapshots that were pinned of it, each named by its number from
/// 0, in the order in which they were given. A contract sees these.
#[derive(Drop)]
pub struct Core {
    timeline: Timeline,
    jobs: Vec<Job>,
    pins: Vec<Snapshot>,
}

impl Model for Core {
    ghost use Rattle.dr_timeline.specs.CoreState.{CoreState, CanWork, HaveSchema};

    ghost Value = { CoreState };

    ghost view = { λ c. record { timeline = c.timeline; jobs = c.jobs.items; pins = c.pins.items } };

    ghost invariant = { λ c. CanWork c.timeline.schema c.jobs.items × HaveSchema c.timeline.schema c.pins.items };
}

impl Core {
    /// A core without events, jobs and snapshots. The only error is that memory ran out.
    pub fn new(alloc: Global, spec: IngestSpec) -> Result<Core, AllocError>
        ensures empty { IfOk result (λ core. core ≡ empty_core spec) }
        ensures well_formed { IfOk result (λ core. IsWellFormed core.timeline.schema) }
    {
        Ok(Core {
            timeline: Timeline::new(alloc, spec)?,
            jobs: Vec::new(alloc),
            pins: Vec::new(alloc),
        })
    }

    /// The spec that the core was made for.
    pub fn spec(&self) -> &IngestSpec
        ensures { result.now ≡ self.now.timeline.schema }
    {
        self.timeline.spec()
    }

    /// Accepts an event that fits the schema, and answers its number in the stream, from 0. An error leaves the core as it
    /// was. Its refusals and its cost are those of [`Timeline::accept`]: 90 `StreamFull`.
    pub fn accept(&mut self, event: Event) -> Result<u64, CoreError>
        requires { FitsSchema self.old.timeline.schema event }
        ensures step { GivesUnless is_memory (λ number. (number, self.new)) result (step.accept event self.old) }
        ensures err { OnErr result (self.new ≡ self.old) }
        ensures schema { self.new.timeline.schema ≡ self.old.timeline.schema }
    {
        Ok(self.timeline.accept(event)?)
    }

    /// Counts an input that became no event, as [`Timeline::note`] does. It takes no memory.
    pub fn note(&mut self, outcome: Outcome)
        ensures step { self.new ≡ step.note outcome self.old }
        ensures schema { self.new.timeline.schema ≡ self.old.timeline.schema }
    {
        self.timeline.note(outcome)
    }

    /// Seals the open range of a chunk, which is named by its start in milliseconds since the epoch. An error leaves the core
    /// as it was. Refusals: 91 `NothingToSeal` where that range has no event. What it costs, [`Timeline::seal`] says.
    pub fn seal(&mut self, chunk: i64) -> Result<(), CoreError>
        ensures step { GivesUnless is_memory (λ _. self.new) result (step.seal chunk self.old) }
        ensures err { OnErr result (self.new ≡ self.old) }
        ensures schema { self.new.timeline.schema ≡ self.old.timeline.schema }
    {
        Ok(self.timeline.seal(chunk)?)
    }

    /// Keeps a job over the sealed ranges of a chunk at the places from `lo` to before `hi`, and answers its number, from 0.
    /// The chunk is named by its start in milliseconds since the epoch. An error leaves the core as it was. Refusals:
    /// 92 `NoSuchRange` where these places name no sealed ranges, or none. It takes time and memory by the ranges, and copies no
    /// row.
    pub fn plan(
        &mut self,
        chunk: i64,
        lo: usize,
        hi: usize,
        purpose: Purpose,
    ) -> Result<usize, CoreError>
        ensures step { GivesUnless is_memory (λ number. (number, self.new)) result (step.plan chunk lo hi purpose self.old) }
        ensures err { OnErr result (self.new ≡ self.old) }
        ensures schema { self.new.timeline.schema ≡ self.old.timeline.schema }
    {
        let job = self.timeline.plan(chunk, lo, hi, purpose)?;
        let number = self.jobs.len();
        self.jobs.push(job)?;
        Ok(number)
    }

    /// Works on the job of that number and puts the range that it makes in the place of the job's ranges, wherever these
    /// stand by now. The answer is the version of that range. An error leaves the core as it was. Refusals: 101 where there is
    /// no such job, 59 `ImageTooLarge` where the image of the range would be too large, then 93 `Stale` where its ranges don't
    /// stand next to each other any more, and then 95 `CommitsFull`. What it costs, `work` of `dr_merge` says.
    pub fn commit(&mut self, alloc: Global, number: usize) -> Result<u64, CoreError>
        ensures step { GivesUnless is_memory (λ version. (version, self.new)) result (step.commit number self.old) }
        ensures err { OnErr result (self.new ≡ self.old) }
        ensures schema { self.new.timeline.schema ≡ self.old.timeline.schema }
    {
        let Some(job) = self.jobs.get(number) else {
            return Err(CoreError::NoSuch);
        };
        commit_to(alloc, &mut self.timeline, job)
    }

    /// Does what [`Core::plan`] and [`Core::commit`] do one after the other, and keeps no job. The answer is the version of
    /// the range that was made. An error leaves the core as it was. Refusals: 92 `NoSuchRange`,
    /// then 59 `ImageTooLarge`, and then 95 `CommitsFull`.
    pub fn join(
        &mut self,
        alloc: Global,
        chunk: i64,
        lo: usize,
        hi: usize,
        purpose: Purpose,
    ) -> Result<u64, CoreError>
        ensures step { GivesUnless is_memory (λ version. (version, self.new)) result (step.join chunk lo hi purpose self.old) }
        ensures err { OnErr result (self.new ≡ self.old) }
        ensures schema { self.new.timeline.schema ≡ self.old.timeline.schema }
    {
        let planned = self.timeline.plan(chunk, lo, hi, purpose)?;
        commit_to(alloc, &mut self.timeline, &planned)
    }

    /// The image of the sealed range of a chunk at a place, from 0. The chunk is named by its start in milliseconds since the epoch.
    /// What it is and what it costs, [`Timeline::image`] says. Refusals: 92 `NoSuchRange`, then 59 `ImageTooLarge`.
    pub fn image(&self, chunk: i64, place: usize) -> Result<Vec<u8>, CoreError>
        ensures { GivesUnless is_memory (λ bytes. bytes.items) result (step.image chunk place self.now) }
    {
        Ok(self.timeline.image(chunk, place)?)
    }

    /// Keeps a snapshot of the timeline as it is now, and answers its number, from 0. An error leaves the core as it was.
    /// The only error is that memory ran out. What it costs, [`Timeline::pin`] says.
    pub fn pin(&mut self) -> Result<usize, AllocError>
        ensures step { IfOk result (λ number. (number, self.new) ≡ step.pin self.old) }
        ensures err { OnErr result (self.new ≡ self.old) }
        ensures schema { self.new.timeline.schema ≡ self.old.timeline.schema }
    {
        let snapshot = self.timeline.pin()?;
        let number = self.pins.len();
        self.pins.push(snapshot)?;
        Ok(number)
    }

    /// A snapshot of the timeline as it is now, which isn't kept and gets no number. The core stays as it was. The only error
    /// is that memory ran out. What it costs, [`Timeline::pin`] says.
    pub fn snapshot_now(&mut self) -> Result<Snapshot, AllocError>
        ensures pinned { IfOk result (λ snapshot. snapshot ≡ pinned self.old.timeline) }
        ensures same { self.new ≡ self.old }
    {
        self.timeline.pin()
    }

    /// The snapshot of that number, where there is one. It has the schema of the core.
    pub fn snapshot(&self, number: usize) -> Option<&Snapshot>
        ensures snapshot { option_map (λ s. s.now) result ≡ slice_get self.now.pins number }
        ensures schema { IfSome result (λ s. s.now.schema ≡ self.now.timeline.schema) }
    {
        self.pins.get(number)
    }

    /// How many events were accepted, and how many inputs were noted.
    pub fn stats(&self) -> Stats
        ensures { result ≡ stats self.now.timeline }
    {
        self.timeline.stats()
    }
}

// Works on a job and commits it.
fn commit_to(alloc: Global, timeline: &mut Timeline, job: &Job) -> Result<u64, CoreError>
    requires { IsJobOf timeline.old.schema job.now }
    ensures step { GivesUnless is_memory (λ version. (version, timeline.new)) result (committed timeline.old job.now) }
    ensures err { OnErr result (timeline.new ≡ timeline.old) }
    ensures schema { timeline.new.schema ≡ timeline.old.schema }
{
    let fragment = work(alloc, timeline.spec().schema(), job)?;
    Ok(timeline.commit(job, fragment)?)
}
