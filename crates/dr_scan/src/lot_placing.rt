ghost use Rattle.std.specs.Prelude.{◌≡◌, ◌++◌, ◌+◌, ◌≤◌, Some, IfOk, OnOk, length, option_map};
ghost use Rattle.dr_ask.specs.Asked.{asked};
ghost use Rattle.dr_filter.specs.Condition.{condition_in};
ghost use Rattle.dr_scan.specs.Places.{places_over};

use crate::lots::lot_end;
use crate::placing::{add_asked, add_places};
use crate::row_place::RowPlace;
use crate::together::told_together;
use dr_ask::Query;
use dr_base::Text;
use dr_filter::Filter;
use dr_fragment::LyingRows;
use std::alloc::{AllocError, Global};

/// The places of the rows that a query selects, segments in order, rows in order. The filter is asked of the rows of small segments that
/// stand next to each other together.
pub(crate) fn places_in_lots(
    alloc: Global,
    query: &Query,
    filter: &Filter,
    segments: &[LyingRows<'_>],
) -> Result<Vec<RowPlace>, AllocError>
    requires { option_map condition_in query.now.filter ≡ Some (condition_in filter.now) }
    ensures { IfOk result (λ ps. ps.items ≡ places_over (asked query.now) 0 segments.now) }
{
    let mut places = Vec::new(alloc);
    let mut dims = Vec::new(alloc);
    let mut from = 0;
    while from < segments.len() {
        let to = lot_end(segments, from);
        let lot = &segments[from..to];
        add_lot(&mut places, &mut dims, query, filter, lot, from)?;
        from = to;
    }
    Ok(places)
}

// Adds those of segments that are asked together, or of one, of which the first has that number among all.
fn add_lot(
    places: &mut Vec<RowPlace>,
    dims: &mut Vec<Text>,
    query: &Query,
    filter: &Filter,
    segments: &[LyingRows<'_>],
    first: usize,
) -> Result<(), AllocError>
    requires filter { option_map condition_in query.now.filter ≡ Some (condition_in filter.now) }
    requires numbers { first + length segments.now ≤ 18446744073709551615 }
    ensures { OnOk result (places.new.items ≡ places.old.items ++ places_over (asked query.now) first segments.now) }
{
    if segments.len() == 1 {
        return add_asked(places, dims, query, &segments[0], first);
    }
    let told = told_together(*dims.allocator(), query, filter, segments)?;
    for i in 0..segments.len() {
        add_places(places, dims, query, &segments[i], &told[i], first + i)?;
    }
    Ok(())
}
