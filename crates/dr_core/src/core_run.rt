ghost use Rattle.std.specs.Prelude.{◌≡◌, IfOk, MatchResult};
ghost use Rattle.std.specs.List.{AllByRecursion};
ghost use Rattle.dr_core.specs.Headline.{AnswersAreRaw};
ghost use Rattle.dr_core.specs.Run.{FitsStep, Moves, Run, RunFrom, reply_for};
ghost use Rattle.dr_core.specs.declared.reply.Reply.TheVariants.{Answer, Refused};
ghost use Rattle.dr_core.specs.declared.step.Step.TheVariants.{Accept, Seal, Plan, Commit, Pin, Ask, Audit};
ghost use Rattle.dr_answers.specs.AnswerRefusal as no_answer;
ghost use Rattle.dr_ask.specs.Asked.{asked};
ghost use Rattle.dr_ask.specs.MadeFor.{MadeFor};
ghost use Rattle.dr_schema.specs.Fits.{FitsSchema};

use crate::asking::ask as answer_to;
use crate::bytes::Bytes;
use crate::core_error::CoreError;
use crate::reply::Reply;
use crate::step::Step;
use crate::timeline_core::Core;
use dr_answers::AnswerError;
use dr_ask::Query;
use dr_base::Event;
use dr_merge::Purpose;
use dr_spec::IngestSpec;
use std::alloc::{AllocError, Global};

/// Takes the steps in turn from a timeline without events, on one thread, and gives a reply to each. The only error is
/// that there was no memory to begin or for the list of replies; within a run a step that finds no memory is refused with
/// 0, and changes nothing. Each event must fit the schema of the spec, and each query have been made for it.
///
/// Whatever the steps seal, merge and publish, and however late, often or in whatever order jobs are committed: each answer to a
/// matching query on a snapshot is, byte for byte, the answer over the raw events that were accepted before its pin.
///
/// It takes what its steps take one after the other, and memory for a reply to each and for a copy of each accepted event.
pub fn run_core_one(
    alloc: Global,
    spec: IngestSpec,
    steps: &[Step],
) -> Result<Vec<Reply>, AllocError>
    requires { AllByRecursion (FitsStep spec) steps.now }
    ensures run { IfOk result (λ replies. Run spec steps.now replies.items) }
    ensures raw_where_matching { IfOk result (λ replies. AnswersAreRaw spec steps.now replies.items) }
{
    let mut core = Core::new(alloc, spec)?;
    take(alloc, &mut core, steps)
}

fn take(alloc: Global, core: &mut Core, steps: &[Step]) -> Result<Vec<Reply>, AllocError>
    requires { AllByRecursion (FitsStep core.old.timeline.schema) steps.now }
    ensures { IfOk result (λ replies. RunFrom core.old steps.now replies.items core.new) }
{
    let mut replies = Vec::with_capacity(alloc, steps.len())?;
    for step in steps {
        let reply = take_step(alloc, core, step);
        replies.push(reply)?;
    }
    Ok(replies)
}

pub(crate) fn take_step(alloc: Global, core: &mut Core, step: &Step) -> Reply
    requires { FitsStep core.old.timeline.schema step.now }
    ensures { Moves core.old step.now result core.new }
{
    match step {
        Step::Accept(event) => accept(core, event),
        Step::Seal(chunk) => seal(core, *chunk),
        Step::Plan(chunk, lo, hi, purpose) => plan(core, *chunk, *lo, *hi, *purpose),
        Step::Commit(number) => commit(alloc, core, *number),
        Step::Pin => pin(core),
        Step::Ask(number, query) => ask(core, *number, query),
        Step::Audit(number, query) => audit(core, *number, query),
    }
}

fn accept(core: &mut Core, event: &Event) -> Reply
    requires { FitsSchema core.old.timeline.schema event.now }
    ensures { Moves core.old (Accept event.now) result core.new }
{
    let Ok(event) = event.copy() else {
        return Reply::Refused(0);
    };
    match core.accept(event) {
        Ok(number) => Reply::Accepted(number),
        Err(error) => refused(error),
    }
}

fn seal(core: &mut Core, chunk: i64) -> Reply
    ensures { Moves core.old (Seal chunk) result core.new }
{
    match core.seal(chunk) {
        Ok(()) => Reply::Sealed,
        Err(error) => refused(error),
    }
}

fn plan(core: &mut Core, chunk: i64, lo: usize, hi: usize, purpose: Purpose) -> Reply
    ensures { Moves core.old (Plan chunk lo hi purpose) result core.new }
{
    match core.plan(chunk, lo, hi, purpose) {
        Ok(number) => Reply::Job(number),
        Err(error) => refused(error),
    }
}

fn commit(alloc: Global, core: &mut Core, number: usize) -> Reply
    ensures { Moves core.old (Commit number) result core.new }
{
    match core.commit(alloc, number) {
        Ok(version) => Reply::Committed(version),
        Err(error) => refused(error),
    }
}

fn pin(core: &mut Core) -> Reply
    ensures { Moves core.old Pin result core.new }
{
    match core.pin() {
        Ok(number) => Reply::Pinned(number),
        Err(_) => Reply::Refused(0),
    }
}

fn ask(core: &Core, number: usize, query: &Query) -> Reply
    requires { MadeFor core.now.timeline.schema (asked query.now) }
    ensures { Moves core.now (Ask number query.now) result core.now }
{
    match core.snapshot(number) {
        Some(snapshot) => answered(answer_to(snapshot, query)),
        None => Reply::NoSuch,
    }
}

fn audit(core: &Core, number: usize, query: &Query) -> Reply
    requires { MadeFor core.now.timeline.schema (asked query.now) }
    ensures { Moves core.now (Audit number query.now) result core.now }
{
    if query.is_scan() {
        return Reply::NoSuch;
    }
    match core.snapshot(number) {
        Some(snapshot) => answered(snapshot.audit(query)),
        None => Reply::NoSuch,
    }
}

fn refused(error: CoreError) -> Reply
    ensures { result ≡ reply_for error }
{
    match error {
        CoreError::NoSuch => Reply::NoSuch,
        CoreError::Merge(error) => Reply::Refused(error.number()),
        CoreError::Timeline(error) => Reply::Refused(error.number()),
    }
}

fn answered(answer: Result<Vec<u8>, AnswerError>) -> Reply
    ensures { MatchResult answer (λ text. result ≡ Answer text.items) (λ e. result ≡ Refused (no_answer.number_of e)) }
{
    match answer {
        Ok(text) => Reply::Answer(Bytes::from_vec(text)),
        Err(error) => Reply::Refused(error.number()),
    }
}
