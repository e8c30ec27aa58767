ghost use Rattle.std.specs.Prelude.{◌≡◌, ◌++◌, IfOk, OnOk, drop};
ghost use Rattle.std.specs.Ordering.{int_cmp};
ghost use Rattle.dr_answers.specs.Given.{limited as limited_of};
ghost use Rattle.dr_answers.specs.InOrder.{in_order_by};
ghost use Rattle.dr_ask.specs.Asked.{asked};
ghost use Rattle.dr_scan.specs.Chosen.{AreTold};
ghost use Rattle.dr_scan.specs.Places.{places_cmp, places_in, places_over};

use crate::choosing::{selection, selects};
use crate::lot_placing::places_in_lots;
use crate::row_place::RowPlace;
use dr_ask::{Query, TimeOrder};
use dr_base::Text;
use dr_columns::Selection;
use dr_fragment::LyingRows;
use dr_select::filter_of_many;
use std::alloc::{AllocError, Global};
use std::cmp::Ordering;

/// The places of the rows that a query selects, segments in order, rows in order. These are the rows of each segment.
pub(crate) fn selected_places(
    alloc: Global,
    query: &Query,
    segments: &[LyingRows<'_>],
) -> Result<Vec<RowPlace>, AllocError>
    ensures { IfOk result (λ ps. ps.items ≡ places_over (asked query.now) 0 segments.now) }
{
    match filter_of_many(&query.filter) {
        Some(filter) => places_in_lots(alloc, query, filter, segments),
        None => places_in_turn(alloc, query, segments),
    }
}

// Each segment is asked by itself.
fn places_in_turn(
    alloc: Global,
    query: &Query,
    segments: &[LyingRows<'_>],
) -> Result<Vec<RowPlace>, AllocError>
    ensures { IfOk result (λ ps. ps.items ≡ places_over (asked query.now) 0 segments.now) }
{
    let mut places = Vec::new(alloc);
    let mut dims = Vec::new(alloc);
    for (i, rows) in segments.iter().enumerate() {
        add_asked(&mut places, &mut dims, query, rows, i)?;
    }
    Ok(places)
}

/// Adds those of a segment that is asked by itself. `dims` is memory to use again.
pub(crate) fn add_asked(
    places: &mut Vec<RowPlace>,
    dims: &mut Vec<Text>,
    query: &Query,
    rows: &LyingRows<'_>,
    segment: usize,
) -> Result<(), AllocError>
    ensures { OnOk result (places.new.items ≡ places.old.items ++ places_in (asked query.now) segment 0 rows.now) }
{
    let told = selection(*dims.allocator(), query, rows)?;
    add_places(places, dims, query, rows, &told, segment)
}

/// Adds those of a segment, of which it may be told which of its rows are selected. `dims` is memory to use again.
pub(crate) fn add_places(
    places: &mut Vec<RowPlace>,
    dims: &mut Vec<Text>,
    query: &Query,
    rows: &LyingRows<'_>,
    told: &Option<Selection>,
    segment: usize,
) -> Result<(), AllocError>
    requires { AreTold told.now (asked query.now) rows.now }
    ensures { OnOk result (places.new.items ≡ places.old.items ++ places_in (asked query.now) segment 0 rows.now) }
{
    for row in 0..rows.len() {
        if !selects(query, told, rows, row, dims)? {
            continue;
        }
        let time = rows.row(row).time();
        places.push(RowPlace { time, segment, row })?;
    }
    Ok(())
}

/// The places by the times of their rows; rows of equal times stay in their order.
pub(crate) fn by_time(places: Vec<RowPlace>, order: TimeOrder) -> Result<Vec<RowPlace>, AllocError>
    ensures { IfOk result (λ ps. ps.items ≡ in_order_by (places_cmp order) places.items) }
{
    match order {
        TimeOrder::Ascending => ascending(places),
        TimeOrder::Descending => descending(places),
    }
}

fn ascending(places: Vec<RowPlace>) -> Result<Vec<RowPlace>, AllocError>
    ensures { IfOk result (λ ps. ps.items ≡ in_order_by (λ a b. int_cmp a.time b.time) places.items) }
{
    let mut sorted = places;
    sorted.sort_by(
        |a: &RowPlace, b: &RowPlace| -> Ordering
            ensures { result ≡ int_cmp a.now.time b.now.time }
        { a.time.cmp(&b.time) },
    )?;
    Ok(sorted)
}

fn descending(places: Vec<RowPlace>) -> Result<Vec<RowPlace>, AllocError>
    ensures { IfOk result (λ ps. ps.items ≡ in_order_by (λ a b. int_cmp b.time a.time) places.items) }
{
    let mut sorted = places;
    sorted.sort_by(
        |a: &RowPlace, b: &RowPlace| -> Ordering
            ensures { result ≡ int_cmp b.now.time a.now.time }
        { b.time.cmp(&a.time) },
    )?;
    Ok(sorted)
}

/// The places behind the first ones, and of these at most as many as the limit.
pub(crate) fn given(places: &[RowPlace], offset: u64, limit: Option<u64>) -> &[RowPlace]
    ensures { result.now ≡ limited_of limit (drop offset places.now) }
{
    limited(&places[places.len().min(offset as usize)..], limit)
}

fn limited(places: &[RowPlace], limit: Option<u64>) -> &[RowPlace]
    ensures { result.now ≡ limited_of limit places.now }
{
    match limit {
        Some(limit) => &places[..places.len().min(limit as usize)],
        None => places,
    }
}
