//! The laws over the definitions alone. The functions do nothing: their contracts are the laws.

ghost use Rattle.dr_cuts.specs.Laws.{AnswersOverCuts, ChunksOfEvents, RawAnswersOfRearranged};

/// The chunks of events rise, and are exactly the chunks that one of the events lies in; so there is one such list.
pub fn chunks_of_events()
    ensures { ChunksOfEvents }
{}

/// The answer to a matching query over the rows of any cuts is the answer over the raw events.
pub fn answers_over_cuts()
    ensures { AnswersOverCuts }
{}

/// The answer to a query over raw events is the same in whatever order they came.
pub fn raw_answers_rearranged()
    ensures { RawAnswersOfRearranged }
{}
