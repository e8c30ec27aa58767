ghost use Rattle.std.specs.Prelude.{◌≡◌, IfErr, IfOk, OnErr};
ghost use Rattle.std.specs.Box.{box_value};
ghost use Rattle.dr_ask.specs.Asked.{asked};
ghost use Rattle.dr_ask.specs.MadeFor.{MadeFor};
ghost use Rattle.dr_ask.specs.QueryOf.{query_of};
ghost use Rattle.dr_base.specs.Reading.{GivesUnless, passed};
ghost use Rattle.dr_cuts.specs.RawAnswer.{raw_answer};
ghost use Rattle.dr_cuts.specs.Segments.{pinned};
ghost use Rattle.dr_core.specs.Asking.{answer_over};
ghost use Rattle.dr_script.specs.declared.script_error.ScriptError.TheVariants.{Answer, Query as BadQuery};
ghost use Rattle.dr_timeline.specs.CoreState.{empty_core};
ghost use Rattle.dr_script.specs.Commands.{AsksQuery, ThreadsIf, add_event, ask_at, ask_now, audit_now as audited_now, carried_out, chunk_named, commit_job, image_at, is_lack, join_ranges, pin_snapshot, plan_ranges, seal_chunk, tell_stats, grouping_of};
ghost use Rattle.dr_script.specs.Replies.{seen};
ghost use Rattle.dr_requests.specs.Seen.{seen_request};

use crate::asking::ask;
use crate::reply::Reply;
use crate::script_error::ScriptError;
use crate::wording::{stats_line, unparseable_line};
use dr_ask::{Query, QueryError};
use dr_base::Text;
use dr_core::{Core, CoreError};
use dr_events::{EventReader, Unparseable};
use dr_merge::Purpose;
use dr_requests::{CommandError, Request, instant_in};
use dr_spec::IngestSpec;
use dr_timeline::Outcome;
use std::alloc::{AllocError, Global};
use std::marker::Model;
use std::sync::Wait;
use std::thread::Threads;

/// The seat whose mark the events of a script have.
const SEAT: u8 = 0;

/// A script that runs: its core, and what reads its events. A contract sees the core: its timeline, and the jobs and the
/// snapshots that it keeps, each named by its number from 0.
#[derive(Drop)]
pub struct Session {
    core: Core,
    events: EventReader,
}

impl Model for Session {
    ghost use Rattle.std.specs.Prelude.{◌≡◌};
    ghost use Rattle.dr_timeline.specs.CoreState.{CoreState};

    ghost Value = { CoreState };

    ghost view = { λ s. s.core };

    ghost invariant = { λ s. s.events ≡ s.core.timeline.schema };
}

impl Session {
    /// A session without events. The only error is that memory ran out.
    pub fn new(alloc: Global, spec: IngestSpec) -> Result<Session, AllocError>
        ensures { IfOk result (λ session. session ≡ empty_core spec) }
    {
        let events = EventReader::new(alloc, &spec)?;
        Ok(Session {
            core: Core::new(alloc, spec)?,
            events,
        })
    }

    /// Does what a line asks for; queries are answered by so many workers. An error leaves the session as it was. Refusals: those
    /// of the command's layer, 101 `BadCommand` where a job or a snapshot is named that there isn't, and for a query 80
    /// `WorkerNotStarted` where the system refused a thread.
    #[tactic(auto, using(crate::proofs::Refusals::any_threads))]
    pub fn carry_out<T: Threads + Wait + Sync>(
        &mut self,
        rt: &T,
        alloc: Global,
        request: Request<&[u8]>,
        workers: usize,
    ) -> Result<Reply, ScriptError>
        ensures step { GivesUnless is_lack (λ reply. (seen reply, self.new)) result (carried_out self.old (seen_request request.entry)) }
        ensures threads { IfErr result (ThreadsIf (AsksQuery (seen_request request.entry))) }
        ensures err { OnErr result (self.new ≡ self.old) }
    {
        match request {
            Request::Add(text) => self.add(alloc, text),
            Request::Seal(instant) => self.seal(instant),
            Request::Join(purpose, instant, lo, hi) => self.join(alloc, purpose, instant, lo, hi),
            Request::Plan(purpose, instant, lo, hi) => self.plan(purpose, instant, lo, hi),
            Request::Commit(number) => self.commit(alloc, number),
            Request::Pin => self.pin(),
            Request::Query(text) => self.query(rt, alloc, text, workers),
            Request::At(number, text) => self.at(rt, alloc, number, text, workers),
            Request::Audit(text) => self.audit(alloc, text),
            Request::Image(instant, place) => self.image(instant, place),
            Request::Stats => self.stats(alloc),
        }
    }

    fn add(&mut self, alloc: Global, text: &[u8]) -> Result<Reply, ScriptError>
        ensures step { GivesUnless is_lack (λ reply. (seen reply, self.new)) result (add_event text.now self.old) }
        ensures threads { IfErr result (ThreadsIf ⊥) }
        ensures err { OnErr result (self.new ≡ self.old) }
    {
        match self.events.read(alloc, SEAT, text) {
            Ok(event) => {
                let number = self.core.accept(event)?;
                Ok(Reply::Accepted(number))
            }
            Err(Unparseable::NoMemory) => Err(ScriptError::Command(CommandError::NoMemory)),
            Err(error) => {
                let line = unparseable_line(alloc, &error)?;
                self.core.note(Outcome::Unparseable);
                Ok(Reply::Said(line))
            }
        }
    }

    fn seal(&mut self, instant: &[u8]) -> Result<Reply, ScriptError>
        ensures step { GivesUnless is_lack (λ reply. (seen reply, self.new)) result (seal_chunk instant.now self.old) }
        ensures threads { IfErr result (ThreadsIf ⊥) }
        ensures err { OnErr result (self.new ≡ self.old) }
    {
        let chunk = self.chunk_named(instant)?;
        self.core.seal(chunk)?;
        Ok(Reply::Sealed)
    }

    fn join(
        &mut self,
        alloc: Global,
        purpose: Purpose,
        instant: &[u8],
        lo: u64,
        hi: u64,
    ) -> Result<Reply, ScriptError>
        ensures step { GivesUnless is_lack (λ reply. (seen reply, self.new)) result (join_ranges purpose instant.now lo hi self.old) }
        ensures threads { IfErr result (ThreadsIf ⊥) }
        ensures err { OnErr result (self.new ≡ self.old) }
    {
        let chunk = self.chunk_named(instant)?;
        let version = self
            .core
            .join(alloc, chunk, lo as usize, hi as usize, purpose)?;
        Ok(Reply::Joined(purpose, version))
    }

    fn plan(
        &mut self,
        purpose: Purpose,
        instant: &[u8],
        lo: u64,
        hi: u64,
    ) -> Result<Reply, ScriptError>
        ensures step { GivesUnless is_lack (λ reply. (seen reply, self.new)) result (plan_ranges purpose instant.now lo hi self.old) }
        ensures threads { IfErr result (ThreadsIf ⊥) }
        ensures err { OnErr result (self.new ≡ self.old) }
    {
        let chunk = self.chunk_named(instant)?;
        let number = self.core.plan(chunk, lo as usize, hi as usize, purpose)?;
        Ok(Reply::Job(number))
    }

    fn commit(&mut self, alloc: Global, number: u64) -> Result<Reply, ScriptError>
        ensures step { GivesUnless is_lack (λ reply. (seen reply, self.new)) result (commit_job number self.old) }
        ensures threads { IfErr result (ThreadsIf ⊥) }
        ensures err { OnErr result (self.new ≡ self.old) }
    {
        self.core.commit(alloc, number as usize)?;
        Ok(Reply::Committed)
    }

    fn pin(&mut self) -> Result<Reply, ScriptError>
        ensures step { GivesUnless is_lack (λ reply. (seen reply, self.new)) result (pin_snapshot self.old) }
        ensures threads { IfErr result (ThreadsIf ⊥) }
        ensures err { OnErr result (self.new ≡ self.old) }
    {
        let number = self.core.pin()?;
        Ok(Reply::Pinned(number))
    }

    fn query<T: Threads + Wait + Sync>(
        &mut self,
        rt: &T,
        alloc: Global,
        text: &[u8],
        workers: usize,
    ) -> Result<Reply, ScriptError>
        ensures step { GivesUnless is_lack (λ reply. (seen reply, self.new)) result (ask_now text.now self.old) }
        ensures same { self.new ≡ self.old }
    {
        let query = self.query_of(alloc, text)?;
        Ok(Reply::Said(answer_now(rt, &mut self.core, &query, workers)?))
    }

    fn at<T: Threads + Wait + Sync>(
        &self,
        rt: &T,
        alloc: Global,
        number: u64,
        text: &[u8],
        workers: usize,
    ) -> Result<Reply, ScriptError>
        ensures { GivesUnless is_lack (λ reply. (seen reply, self.now)) result (ask_at number text.now self.now) }
    {
        let Some(snapshot) = self.core.snapshot(number as usize) else {
            return Err(ScriptError::Core(CoreError::NoSuch));
        };
        let query = self.query_of(alloc, text)?;
        Ok(Reply::Said(ask(rt, snapshot, &query, workers)?))
    }

    fn audit(&mut self, alloc: Global, text: &[u8]) -> Result<Reply, ScriptError>
        ensures step { GivesUnless is_lack (λ reply. (seen reply, self.new)) result (audited_now text.now self.old) }
        ensures threads { IfErr result (ThreadsIf ⊥) }
        ensures same { self.new ≡ self.old }
    {
        let query = self.grouping(alloc, text)?;
        Ok(Reply::Said(audit_now(&mut self.core, &query)?))
    }

    fn image(&self, instant: &[u8], place: u64) -> Result<Reply, ScriptError>
        ensures told { GivesUnless is_lack (λ reply. (seen reply, self.now)) result (image_at instant.now place self.now) }
        ensures threads { IfErr result (ThreadsIf ⊥) }
    {
        let chunk = self.chunk_named(instant)?;
        let bytes = self.core.image(chunk, place as usize)?;
        Ok(Reply::Hexadecimal(bytes))
    }

    fn stats(&self, alloc: Global) -> Result<Reply, ScriptError>
        ensures told { GivesUnless is_lack (λ reply. (seen reply, self.now)) result (tell_stats self.now) }
        ensures threads { IfErr result (ThreadsIf ⊥) }
    {
        Ok(Reply::Said(stats_line(alloc, self.core.stats())?))
    }

    // The query of a text.
    fn query_of(&self, alloc: Global, text: &[u8]) -> Result<Box<Query>, ScriptError>
        ensures value { GivesUnless is_lack (λ q. asked (box_value q)) result (passed BadQuery (query_of self.now.timeline.schema text.now)) }
        ensures threads { IfErr result (ThreadsIf ⊥) }
        ensures made { IfOk result (λ q. MadeFor self.now.timeline.schema (asked (box_value q))) }
    {
        let query = Query::parse(alloc, text, self.core.spec().schema())?;
        Ok(Box::new(alloc, query)?)
    }

    // The query of a text that can be audited, which a scan can't.
    fn grouping(&self, alloc: Global, text: &[u8]) -> Result<Box<Query>, ScriptError>
        ensures value { GivesUnless is_lack (λ q. asked (box_value q)) result (passed BadQuery (grouping_of self.now.timeline.schema text.now)) }
        ensures threads { IfErr result (ThreadsIf ⊥) }
        ensures made { IfOk result (λ q. MadeFor self.now.timeline.schema (asked (box_value q))) }
    {
        let query = self.query_of(alloc, text)?;
        if query.is_scan() {
            let name = Text::from_str(alloc, "scan")?;
            return Err(ScriptError::Query(QueryError::Unsupported(name)));
        }
        Ok(query)
    }

    // The start of the chunk in which an instant lies, in milliseconds since the epoch.
    fn chunk_named(&self, instant: &[u8]) -> Result<i64, ScriptError>
        ensures value { GivesUnless is_lack (λ start. start) result (chunk_named self.now instant.now) }
        ensures threads { IfErr result (ThreadsIf ⊥) }
    {
        let time = instant_in(instant)?;
        let schema = self.core.spec().schema();
        Ok(schema.segment_granularity().truncate(time))
    }
}

// The answer over the ranges as they are. The core stays as it was.
fn answer_now<T: Threads + Wait + Sync>(
    rt: &T,
    core: &mut Core,
    query: &Query,
    workers: usize,
) -> Result<Vec<u8>, ScriptError>
    requires { MadeFor core.old.timeline.schema (asked query.now) }
    ensures answer { GivesUnless is_lack (λ text. text.items) result (passed Answer (answer_over (asked query.now) (pinned core.old.timeline))) }
    ensures same { core.new ≡ core.old }
{
    let snapshot = core.snapshot_now()?;
    ask(rt, &snapshot, query, workers)
}

// The answer over the accepted events, one by one. The core stays as it was.
fn audit_now(core: &mut Core, query: &Query) -> Result<Vec<u8>, ScriptError>
    requires { MadeFor core.old.timeline.schema (asked query.now) }
    ensures answer { GivesUnless is_lack (λ text. text.items) result (passed Answer (raw_answer core.old.timeline.schema (asked query.now) core.old.timeline.stream)) }
    ensures threads { IfErr result (ThreadsIf ⊥) }
    ensures same { core.new ≡ core.old }
{
    let snapshot = core.snapshot_now()?;
    Ok(snapshot.audit(query)?)
}
