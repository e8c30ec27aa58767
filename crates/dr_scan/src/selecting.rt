ghost use Rattle.std.specs.Prelude.{◌≡◌, IfOk, option_map};
ghost use Rattle.dr_answers.specs.Selection.{passes, selects};
ghost use Rattle.dr_ask.specs.Asked.{asked};
ghost use Rattle.dr_filter.specs.Condition.{condition_in};

use crate::row_reading::meets;
use dr_ask::Query;
use dr_base::Text;
use dr_filter::Filter;
use dr_fragment::RowRef;
use std::alloc::AllocError;

/// Whether a query selects a row. `dims` is memory to use again.
pub(crate) fn is_selected(
    query: &Query,
    row: &RowRef<'_>,
    dims: &mut Vec<Text>,
) -> Result<bool, AllocError>
    ensures { IfOk result (λ b. b ≡ selects (asked query.now) row.now.key) }
{
    if !query.intervals.contains(row.time()) {
        return Ok(false);
    }
    passes(&query.filter, row, dims)
}

fn passes(
    filter: &Option<Filter>,
    row: &RowRef<'_>,
    dims: &mut Vec<Text>,
) -> Result<bool, AllocError>
    ensures { IfOk result (λ b. b ≡ passes (option_map condition_in filter.now) row.now.key) }
{
    match filter {
        Some(filter) => meets(row, filter, dims),
        None => Ok(true),
    }
}
