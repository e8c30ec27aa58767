ghost use Rattle.std.specs.Prelude.{IfErr, IfSome, List, Result, bytes_eq, ℕ};
ghost use Rattle.std.specs.List.{All, AllByRecursion, IsDistinct};
ghost use Rattle.dr_answers.specs.AnswerRefusal.{Answers};
ghost use Rattle.dr_answers.specs.declared.answer_error.AnswerError as one;
ghost use Rattle.dr_ask.specs.Asked.{asked};
ghost use Rattle.dr_ask.specs.MadeFor.{outputs};
ghost use Rattle.dr_intervals.specs.Printable.{StartsPrintable};
ghost use Rattle.dr_time.specs.Instant.{IsInstant};
ghost use Rattle.dr_time.specs.Printed.{IsPrintable};
ghost use Rattle.dr_timeline.specs.AskRefusal.{AnswersUnless, HasThreads};
ghost use Rattle.dr_timeline.specs.Answering.{answer_from};

use crate::ask_error::AskError;
use dr_answers::AnswerError;
use dr_ask::Query;
use dr_finish::finish;
use dr_partial::Partial;
use dr_writer::text_of;
use std::alloc::Global;

/// The text of the answer to a query, from its partial result over some rows and the span of these rows.
#[tactic(auto, unfolding(crate::specs::Answering::answer_from))]
pub fn answer(
    alloc: Global,
    query: &Query,
    partial: Partial,
    span: Option<(i64, i64)>,
) -> Result<Vec<u8>, AnswerError>
    requires span { IfSome span (λ s. IsInstant s.0 × IsInstant s.1) }
    requires starts { All StartsPrintable query.now.intervals }
    requires buckets { AllByRecursion (λ g. IsPrintable g.key.time) partial }
    requires distinct { IsDistinct bytes_eq (outputs (asked query.now)) }
    ensures { Answers (λ text. text.items) result (answer_from (asked query.now) span partial) }
{
    let groups = finish(alloc, query, partial, span)?;
    Ok(text_of(alloc, query, groups.as_slice())?)
}

/// What one worker answered, as an answer by several.
pub fn told(answer: Result<Vec<u8>, AnswerError>) -> Result<Vec<u8>, AskError>
    ensures told { (reading : Result (List ℕ) one.AnswerError) → Answers (λ text. text.items) answer reading → AnswersUnless (λ text. text.items) result reading }
    ensures threads { IfErr result HasThreads }
{
    match answer {
        Ok(text) => Ok(text),
        Err(error) => Err(AskError::Answer(error)),
    }
}
