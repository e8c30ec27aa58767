ghost use Rattle.std.specs.Prelude.{◌≡◌, Some, map, option_map, OnOk};
ghost use Rattle.dr_ask.specs.Asked.{asked};
ghost use Rattle.dr_filter.specs.Condition.{condition_in};
ghost use Rattle.dr_scan.specs.Chosen.{AreEachTold};
ghost use Rattle.dr_scan.specs.Turns.{GoesOn};
ghost use Rattle.dr_scan.specs.Written.{segments_tokens};
ghost use Rattle.dr_writer.specs.Written.{Adds};

use crate::lots::lot_end;
use crate::ordered_writing::rows_of_each;
use crate::segment::Segment;
use crate::segment_writing::{write_given, write_segment};
use crate::together::told_together;
use crate::window::Window;
use dr_ask::{Query, Scan, ScanColumn};
use dr_columns::Selection;
use dr_filter::Filter;
use dr_fragment::LyingRows;
use json::Writer;
use std::alloc::{AllocError, Global};

/// Writes the entries of segments, one segment after another, without an order. The filter is asked of the rows of small segments that
/// stand next to each other together, before the first of them is written.
pub(crate) fn write_in_lots(
    alloc: Global,
    out: &mut Writer,
    query: &Query,
    filter: &Filter,
    scan: &Scan,
    columns: &[ScanColumn],
    segments: &[Segment<'_>],
) -> Result<(), AllocError>
    requires { option_map condition_in query.now.filter ≡ Some (condition_in filter.now) }
    ensures { Adds result out.old out.new (segments_tokens (asked query.now) scan.now columns.now (record { skip = scan.now.offset; left = scan.now.limit }) segments.now) }
{
    let mut window = Window {
        skip: scan.offset,
        left: scan.limit,
    };
    let mut from = 0;
    while from < segments.len() {
        if window.is_over() {
            return Ok(());
        }
        let to = lot_end(segments, from);
        let lot = &segments[from..to];
        write_lot(alloc, out, &mut window, query, filter, scan, columns, lot)?;
        from = to;
    }
    Ok(())
}

// Writes those of segments that are asked together, or of one.
fn write_lot(
    alloc: Global,
    out: &mut Writer,
    window: &mut Window,
    query: &Query,
    filter: &Filter,
    scan: &Scan,
    columns: &[ScanColumn],
    segments: &[Segment<'_>],
) -> Result<(), AllocError>
    requires { option_map condition_in query.now.filter ≡ Some (condition_in filter.now) }
    ensures { OnOk result (GoesOn (asked query.now) scan.now columns.now out.old out.new window.old window.new segments.now) }
{
    if segments.len() == 1 {
        return write_segment(alloc, out, window, query, scan, columns, &segments[0]);
    }
    let rows = rows_of_each(alloc, segments)?;
    let told = told_together(alloc, query, filter, &rows)?;
    write_told(
        alloc, out, window, query, scan, columns, segments, &rows, &told,
    )
}

// Writes those of segments of which it is told which of their rows are selected.
fn write_told(
    alloc: Global,
    out: &mut Writer,
    window: &mut Window,
    query: &Query,
    scan: &Scan,
    columns: &[ScanColumn],
    segments: &[Segment<'_>],
    rows: &[LyingRows<'_>],
    told: &[Option<Selection>],
) -> Result<(), AllocError>
    requires rows { rows.now ≡ map (λ g. g.rows) segments.now }
    requires told { AreEachTold (asked query.now) told.now rows.now }
    ensures { OnOk result (GoesOn (asked query.now) scan.now columns.now out.old out.new window.old window.new segments.now) }
{
    for i in 0..segments.len() {
        if window.is_over() {
            return Ok(());
        }
        let identifier = segments[i].identifier();
        write_given(
            alloc, out, window, query, scan, columns, identifier, &rows[i], &told[i],
        )?;
    }
    Ok(())
}
