ghost use Rattle.std.specs.Prelude.{◌≡◌, ◌<◌, IfOk, drop};
ghost use Rattle.std.specs.List.{AllByRecursion, flat_map};
ghost use Rattle.std.specs.Prelude.{map};
ghost use Rattle.dr_answers.specs.Given.{limited};
ghost use Rattle.dr_ask.specs.Asked.{asked};
ghost use Rattle.dr_scan.specs.Entries.{by_time as by_time_of};
ghost use Rattle.dr_scan.specs.Places.{all_selected, row_of, IsPlace};
ghost use Rattle.dr_scan.specs.Written.{one_entry_tokens, row_tokens};
ghost use Rattle.dr_writer.specs.Written.{Adds};

use crate::entry_writing::{begin_entry, end_entry};
use crate::placing::{by_time, given, selected_places};
use crate::row_place::RowPlace;
use crate::row_writing::write_row;
use crate::segment::Segment;
use dr_ask::{Query, ResultFormat, Scan, ScanColumn, TimeOrder};
use dr_fragment::LyingRows;
use json::Writer;
use std::alloc::{AllocError, Global};

/// Writes the one entry of an ordered scan: the rows of all segments by their times, behind the first ones, at most as many as
/// the limit. Of a row that isn't written its place alone is kept.
pub(crate) fn write_ordered(
    alloc: Global,
    out: &mut Writer,
    query: &Query,
    scan: &Scan,
    columns: &[ScanColumn],
    segments: &[Segment<'_>],
    order: TimeOrder,
) -> Result<(), AllocError>
    ensures { Adds result out.old out.new (one_entry_tokens scan.now columns.now (limited scan.now.limit (drop scan.now.offset (by_time_of order (all_selected (asked query.now) (map (λ g. g.rows) segments.now)))))) }
{
    let rows = rows_of_each(alloc, segments)?;
    write_by_time(alloc, out, query, scan, columns, &rows, order)
}

/// The rows of each segment.
pub(crate) fn rows_of_each<'a>(
    alloc: Global,
    segments: &'a [Segment<'_>],
) -> Result<Vec<LyingRows<'a>>, AllocError>
    ensures { IfOk result (λ rows. rows.items ≡ map (λ g. g.rows) segments.now) }
{
    let mut rows = Vec::with_capacity(alloc, segments.len())?;
    for segment in segments {
        rows.push(segment.rows()?)?;
    }
    Ok(rows)
}

/// Writes the one entry of an ordered scan over the rows of each segment.
fn write_by_time(
    alloc: Global,
    out: &mut Writer,
    query: &Query,
    scan: &Scan,
    columns: &[ScanColumn],
    segments: &[LyingRows<'_>],
    order: TimeOrder,
) -> Result<(), AllocError>
    ensures { Adds result out.old out.new (one_entry_tokens scan.now columns.now (limited scan.now.limit (drop scan.now.offset (by_time_of order (all_selected (asked query.now) segments.now))))) }
{
    let places = by_time(selected_places(alloc, query, segments)?, order)?;
    let given = given(places.as_slice(), scan.offset, scan.limit);
    write_one_entry(out, scan, columns, segments, given)
}

/// Writes an entry of the rows at these places, where there are any.
fn write_one_entry(
    out: &mut Writer,
    scan: &Scan,
    columns: &[ScanColumn],
    segments: &[LyingRows<'_>],
    places: &[RowPlace],
) -> Result<(), AllocError>
    requires { AllByRecursion (IsPlace segments.now) places.now }
    ensures { Adds result out.old out.new (one_entry_tokens scan.now columns.now (map (row_of segments.now) places.now)) }
{
    if places.is_empty() {
        return Ok(());
    }
    begin_entry(out, scan.columns.as_slice())?;
    write_rows(out, scan.result_format, columns, segments, places)?;
    end_entry(out, None)
}

fn write_rows(
    out: &mut Writer,
    format: ResultFormat,
    columns: &[ScanColumn],
    segments: &[LyingRows<'_>],
    places: &[RowPlace],
) -> Result<(), AllocError>
    requires { AllByRecursion (IsPlace segments.now) places.now }
    ensures { Adds result out.old out.new (flat_map (row_tokens format columns.now) (map (row_of segments.now) places.now)) }
{
    for place in places {
        write_place(out, format, columns, segments, place)?;
    }
    Ok(())
}

fn write_place(
    out: &mut Writer,
    format: ResultFormat,
    columns: &[ScanColumn],
    segments: &[LyingRows<'_>],
    place: &RowPlace,
) -> Result<(), AllocError>
    requires { IsPlace segments.now place.now }
    ensures { Adds result out.old out.new (row_tokens format columns.now (row_of segments.now place.now)) }
{
    let row = segments[place.segment].row(place.row);
    write_row(out, format, columns, &row)
}
