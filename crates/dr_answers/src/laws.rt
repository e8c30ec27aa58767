//! The laws over the definitions of an answer alone. The functions do nothing: their contracts are the laws.

ghost use Rattle.dr_answers.specs.Laws.{AnswersOfAlikeRows, AnswersOfRearrangedRows, GroupsOfOnce};

/// The answer over rows depends on two things: on which tests of keys some row passes, and on what the query's aggregations
/// fold to over the rows that pass a test.
pub fn answers_of_alike_rows()
    ensures { AnswersOfAlikeRows }
{}

/// The answer over rows does not depend on their order.
pub fn answers_rearranged()
    ensures { AnswersOfRearrangedRows }
{}

/// The groups of a query over rows are those of the query that asks each dimension and each aggregation once, with the value of
/// each output in its place.
pub fn groups_of_once()
    ensures { GroupsOfOnce }
{}
