//! What holds of partial results.

ghost use Rattle.dr_partial.specs.Laws.{GroupsFromPartial};

/// The groups of a query over rows are those that its partial result over the rows and their span give.
pub fn groups_from_partial()
    ensures { GroupsFromPartial }
{}
