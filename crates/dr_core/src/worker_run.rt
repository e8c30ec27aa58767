ghost use Rattle.std.specs.Prelude.{◌≡◌, IfOk, MatchResult};
ghost use Rattle.std.specs.List.{AllByRecursion};
ghost use Rattle.dr_ask.specs.Asked.{asked};
ghost use Rattle.dr_ask.specs.MadeFor.{MadeFor};
ghost use Rattle.dr_core.specs.Run.{FitsStep};
ghost use Rattle.dr_core.specs.WorkerRun.{AnswersAreRawByWorkers, MovesByWorkers, RunByWorkers, RunFromByWorkers};
ghost use Rattle.dr_core.specs.declared.reply.Reply.TheVariants.{Answer, Refused};
ghost use Rattle.dr_core.specs.declared.step.Step.TheVariants.{Ask};
ghost use Rattle.dr_timeline.specs.AskRefusal as no_answer;

use crate::asking_by::ask_by;
use crate::bytes::Bytes;
use crate::core_run::take_step;
use crate::reply::Reply;
use crate::step::Step;
use crate::timeline_core::Core;
use dr_ask::Query;
use dr_spec::IngestSpec;
use dr_timeline::{AskError, Gate};
use std::alloc::{AllocError, Global};
use std::sync::Wait;
use std::thread::Threads;

/// Takes the steps in turn, as [`crate::run_core_one`] does, with each query answered by so many workers, 1 to 16, each of
/// which enters the gate before it works on a range. A query to which the system refused a thread is refused with 80, and
/// changes nothing. Each event must fit the schema of the spec, and each query have been made for it.
///
/// Whatever the steps seal, merge and publish, and however late, often or in whatever order jobs are committed, and whatever the number of
/// workers and the gate: each answer to a matching query on a snapshot is, byte for byte, the answer over the raw events
/// that were accepted before its pin. Its cost is that of `run_core_one`, with that of [`ask_by`] for each query.
pub fn run_core<R: Threads + Wait + Sync, G: Gate + Sync>(
    rt: &R,
    alloc: Global,
    spec: IngestSpec,
    steps: &[Step],
    workers: usize,
    gate: &G,
) -> Result<Vec<Reply>, AllocError>
    requires { AllByRecursion (FitsStep spec) steps.now }
    ensures run { IfOk result (λ replies. RunByWorkers spec steps.now replies.items) }
    ensures raw_where_matching { IfOk result (λ replies. AnswersAreRawByWorkers spec steps.now replies.items) }
{
    let mut core = Core::new(alloc, spec)?;
    take_by_workers(rt, alloc, &mut core, steps, workers, gate)
}

fn take_by_workers<R: Threads + Wait + Sync, G: Gate + Sync>(
    rt: &R,
    alloc: Global,
    core: &mut Core,
    steps: &[Step],
    workers: usize,
    gate: &G,
) -> Result<Vec<Reply>, AllocError>
    requires { AllByRecursion (FitsStep core.old.timeline.schema) steps.now }
    ensures { IfOk result (λ replies. RunFromByWorkers core.old steps.now replies.items core.new) }
{
    let mut replies = Vec::with_capacity(alloc, steps.len())?;
    for step in steps {
        let reply = step_by_workers(rt, alloc, core, step, workers, gate);
        replies.push(reply)?;
    }
    Ok(replies)
}

fn step_by_workers<R: Threads + Wait + Sync, G: Gate + Sync>(
    rt: &R,
    alloc: Global,
    core: &mut Core,
    step: &Step,
    workers: usize,
    gate: &G,
) -> Reply
    requires { FitsStep core.old.timeline.schema step.now }
    ensures { MovesByWorkers core.old step.now result core.new }
{
    match step {
        Step::Ask(number, query) => ask(rt, core, *number, query, workers, gate),
        _ => take_step(alloc, core, step),
    }
}

fn ask<R: Threads + Wait + Sync, G: Gate + Sync>(
    rt: &R,
    core: &Core,
    number: usize,
    query: &Query,
    workers: usize,
    gate: &G,
) -> Reply
    requires { MadeFor core.now.timeline.schema (asked query.now) }
    ensures { MovesByWorkers core.now (Ask number query.now) result core.now }
{
    match core.snapshot(number) {
        Some(snapshot) => answered(ask_by(rt, snapshot, query, workers, gate)),
        None => Reply::NoSuch,
    }
}

fn answered(answer: Result<Vec<u8>, AskError>) -> Reply
    ensures { MatchResult answer (λ text. result ≡ Answer text.items) (λ e. result ≡ Refused (no_answer.number_of e)) }
{
    match answer {
        Ok(text) => Reply::Answer(Bytes::from_vec(text)),
        Err(error) => Reply::Refused(error.number()),
    }
}
