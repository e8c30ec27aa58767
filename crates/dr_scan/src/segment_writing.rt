ghost use Rattle.std.specs.Prelude.{◌≡◌, ◌<◌, ◌≤◌, Some, length, IfSome};
ghost use Rattle.std.specs.List.Sorted.{IsPermutation};
ghost use Rattle.dr_answers.specs.Selection.{selected};
ghost use Rattle.dr_ask.specs.Asked.{asked};
ghost use Rattle.dr_scan.specs.Chosen.{AreTold};
ghost use Rattle.dr_scan.specs.Window.{after, given};
ghost use Rattle.dr_scan.specs.Written.{at_end, before_row, count_with, entry_back, entry_front, segment_tokens};
ghost use Rattle.dr_writer.specs.Written.{Adds};
ghost use Rattle.std.specs.Prelude.{OnOk};

use crate::choosing::{selection, selects};
use crate::counting::leave_out;
use crate::entry_writing::{begin_entry, end_entry};
use crate::row_writing::write_row;
use crate::segment::Segment;
use crate::window::Window;
use dr_ask::{Query, Scan, ScanColumn};
use dr_base::Text;
use dr_columns::Selection;
use dr_fragment::LyingRows;
use dr_rollup::Arrived;
use dr_select::filter_of_many;
use json::Writer;
use std::alloc::{AllocError, Global};

/// Writes the entries of a segment: of the rows that a query selects those that the window gives. The columns are those of the
/// scan, in the order in which they are written.
pub(crate) fn write_segment(
    alloc: Global,
    out: &mut Writer,
    window: &mut Window,
    query: &Query,
    scan: &Scan,
    columns: &[ScanColumn],
    segment: &Segment<'_>,
) -> Result<(), AllocError>
    ensures tokens { Adds result out.old out.new (segment_tokens scan.now columns.now segment.now.identifier 0 (given window.old (selected (asked query.now) segment.now.rows))) }
    ensures window { OnOk result (window.new ≡ after window.old (length (selected (asked query.now) segment.now.rows))) }
{
    match left_out(query, *window, segment) {
        Some(rows) => leave_out(alloc, window, query, &rows),
        None => {
            let rows = segment.rows()?;
            let identifier = segment.identifier();
            let told = selection(alloc, query, &rows)?;
            write_given(
                alloc, out, window, query, scan, columns, identifier, &rows, &told,
            )
        }
    }
}

/// The rows of a segment as their keys came, where they stand in an index, the window leaves out as many, and the filter, if any, is
/// asked soonest row by row.
fn left_out<'s>(query: &Query, window: Window, segment: &'s Segment<'_>) -> Option<Arrived<'s>>
    ensures rows { IfSome result (λ rows. IsPermutation rows segment.now.rows) }
    ensures none { IfSome result (λ rows. length rows ≤ window.skip) }
{
    let rows = segment.arrived()?;
    if filter_of_many(&query.filter).is_some() || rows.len() as u64 > window.skip {
        return None;
    }
    Some(rows)
}

/// Writes the entries of a segment with this identifier and these rows, of which it may be told which are selected.
pub(crate) fn write_given(
    alloc: Global,
    out: &mut Writer,
    window: &mut Window,
    query: &Query,
    scan: &Scan,
    columns: &[ScanColumn],
    identifier: &Text,
    rows: &LyingRows<'_>,
    told: &Option<Selection>,
) -> Result<(), AllocError>
    requires { AreTold told.now (asked query.now) rows.now }
    ensures tokens { Adds result out.old out.new (segment_tokens scan.now columns.now identifier.now 0 (given window.old (selected (asked query.now) rows.now))) }
    ensures window { OnOk result (window.new ≡ after window.old (length (selected (asked query.now) rows.now))) }
{
    let mut dims = Vec::new(alloc);
    let mut count = 0;
    for i in 0..rows.len() {
        if !selects(query, told, rows, i, &mut dims)? {
            continue;
        }
        if !window.takes() {
            continue;
        }
        let row = rows.row(i);
        write_before_row(out, scan, identifier, count)?;
        write_row(out, scan.result_format, columns, &row)?;
        count = count_with(scan.batch_size, count);
    }
    write_at_end(out, identifier, count)
}

/// Before a row, where so many rows of an entry are written: ends it where it is full, and begins one where there is none.
fn write_before_row(
    out: &mut Writer,
    scan: &Scan,
    identifier: &Text,
    count: u64,
) -> Result<(), AllocError>
    ensures { Adds result out.old out.new (before_row (entry_front scan.now.columns) (entry_back (Some identifier.now)) scan.now.batch_size count) }
{
    if count == 0 {
        return begin_entry(out, scan.columns.as_slice());
    }
    if count == scan.batch_size {
        end_entry(out, Some(identifier))?;
        return begin_entry(out, scan.columns.as_slice());
    }
    Ok(())
}

/// How many rows the entry has with one more.
fn count_with(size: u64, count: u64) -> u64
    requires { count < 18446744073709551615 }
    ensures { result ≡ count_with size count }
{
    if count == 0 || count == size {
        1
    } else {
        count + 1
    }
}

/// Behind the last row: ends the entry where there is one.
fn write_at_end(out: &mut Writer, identifier: &Text, count: u64) -> Result<(), AllocError>
    ensures { Adds result out.old out.new (at_end (entry_back (Some identifier.now)) count) }
{
    if count == 0 {
        return Ok(());
    }
    end_entry(out, Some(identifier))
}
