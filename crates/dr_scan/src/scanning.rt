ghost use Rattle.std.specs.Prelude.{◌≡◌, IfOk, map};
ghost use Rattle.std.specs.List.{flat_map};
ghost use Rattle.serde_json.specs.Data.{array};
ghost use Rattle.serde_json.specs.View.{items_of};
ghost use Rattle.dr_ask.specs.Asked.{asked, asked_shape};
ghost use Rattle.dr_scan.specs.Entries.{entries, entries_by, entries_in, selected_in};
ghost use Rattle.dr_scan.specs.ScanText.{entries_data, entry_data, scanned};
ghost use Rattle.dr_scan.specs.Written.{segments_tokens};
ghost use Rattle.dr_writer.specs.Written.{Adds, data_tokens};

use crate::columns_written::columns_written;
use crate::lot_writing::write_in_lots;
use crate::ordered_writing::write_ordered;
use crate::segment::Segment;
use crate::segment_writing::write_segment;
use crate::window::Window;
use dr_ask::{Query, Scan, ScanColumn, Shape};
use dr_select::filter_of_many;
use json::Writer;
use std::alloc::{AllocError, Global};

/// The text of a scan over segments, as JSON in UTF-8 without spaces, keys in ascending byte order (RFC 8259; Apache Druid
/// documentation, scan queries): `[{"columns":[..],"events":[..],"segmentId":".."}]`, a row as an object or as a list in the
/// order of the columns, a time in milliseconds since the epoch, an empty dimension value and an unknown column as `null`. Of
/// the rows that the query selects, segments in order, rows in order, those behind its offset are given, at most as many as its
/// limit; each segment's in entries of at most as many rows as its batch size. With an order there is one entry, of the rows of
/// all segments by their times, which has no identifier. A query that is no scan has no entries. The only error is that memory
/// ran out.
///
/// It takes time by the rows of the segments and by the bytes of the text; where the rows stand in an index, references to them are
/// sorted, but not where the offset that is left is as large as their number: then those that are selected are counted as they lie.
/// An order takes n log n in the rows that are selected. Of an image a filter takes time by its tests, each by the rows and by the
/// dictionary's values; rows that were made are asked one by one; and a filter of many tests is asked of many rows at once, as by
/// [`select_rows`](dr_select::select_rows): of those of segments of fewer than 1024 rows that stand next to each other together, up to
/// 16,384 of them. Rows that aren't written aren't read but for their time and, where they were made and there is a filter, their
/// dimension values. Behind the limit no segment is read, but for those that were asked together with the last one that is written.
///
/// The text grows in one buffer. Beside it stand, of one segment at a time, of an index where each row lies, and of an image which
/// rows are selected: a byte for each row and each level of the filter, and nothing where all its times lie in the intervals and
/// there is no filter. Of segments that are asked together there are copies of the rows whose times lie in the intervals while they are
/// asked, and until these segments are written a byte for each row, and of an index where each row lies. With an order there are the
/// places of all rows that are selected, and where the rows of each index lie.
pub fn scan(alloc: Global, query: &Query, segments: &[Segment<'_>]) -> Result<Vec<u8>, AllocError>
    ensures { IfOk result (λ text. text.items ≡ scanned (asked query.now) segments.now) }
{
    let mut out = Writer::new(Vec::new(alloc));
    write_entries(alloc, &mut out, query, segments)?;
    Ok(out.into_inner())
}

/// Writes the list of the entries.
fn write_entries(
    alloc: Global,
    out: &mut Writer,
    query: &Query,
    segments: &[Segment<'_>],
) -> Result<(), AllocError>
    ensures { Adds result out.old out.new (data_tokens (array (items_of (entries_data (asked_shape query.now.shape) (entries (asked query.now) segments.now))))) }
{
    out.begin_array()?;
    write_each(alloc, out, query, segments)?;
    out.end_array()
}

fn write_each(
    alloc: Global,
    out: &mut Writer,
    query: &Query,
    segments: &[Segment<'_>],
) -> Result<(), AllocError>
    ensures { Adds result out.old out.new (flat_map data_tokens (entries_data (asked_shape query.now.shape) (entries_in (asked_shape query.now.shape) (asked query.now) segments.now))) }
{
    match &query.shape {
        Shape::Scan(scan) => write_scan(alloc, out, query, scan, segments),
        Shape::Timeseries(_) | Shape::GroupBy(_) => Ok(()),
    }
}

fn write_scan(
    alloc: Global,
    out: &mut Writer,
    query: &Query,
    scan: &Scan,
    segments: &[Segment<'_>],
) -> Result<(), AllocError>
    ensures { Adds result out.old out.new (flat_map data_tokens (map (entry_data scan.now) (entries_by scan.now.order scan.now (map (selected_in (asked query.now)) segments.now)))) }
{
    let columns = columns_written(alloc, scan)?;
    let columns = columns.as_slice();
    match scan.order {
        None => write_segments(alloc, out, query, scan, columns, segments),
        Some(order) => write_ordered(alloc, out, query, scan, columns, segments, order),
    }
}

/// Writes the entries of segments, one segment after another, without an order.
fn write_segments(
    alloc: Global,
    out: &mut Writer,
    query: &Query,
    scan: &Scan,
    columns: &[ScanColumn],
    segments: &[Segment<'_>],
) -> Result<(), AllocError>
    ensures { Adds result out.old out.new (segments_tokens (asked query.now) scan.now columns.now (record { skip = scan.now.offset; left = scan.now.limit }) segments.now) }
{
    match filter_of_many(&query.filter) {
        Some(filter) => write_in_lots(alloc, out, query, filter, scan, columns, segments),
        None => write_in_turn(alloc, out, query, scan, columns, segments),
    }
}

// Each segment is asked by itself.
fn write_in_turn(
    alloc: Global,
    out: &mut Writer,
    query: &Query,
    scan: &Scan,
    columns: &[ScanColumn],
    segments: &[Segment<'_>],
) -> Result<(), AllocError>
    ensures { Adds result out.old out.new (segments_tokens (asked query.now) scan.now columns.now (record { skip = scan.now.offset; left = scan.now.limit }) segments.now) }
{
    let mut window = Window {
        skip: scan.offset,
        left: scan.limit,
    };
    for segment in segments {
        if window.is_over() {
            return Ok(());
        }
        write_segment(alloc, out, &mut window, query, scan, columns, segment)?;
    }
    Ok(())
}
