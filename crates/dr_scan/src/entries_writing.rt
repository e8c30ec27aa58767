ghost use Rattle.std.specs.Prelude.{◌≡◌, IfOk, map};
ghost use Rattle.std.specs.List.{flat_map};
ghost use Rattle.serde_json.specs.Data.{array};
ghost use Rattle.serde_json.specs.View.{items_of};
ghost use Rattle.dr_ask.specs.Asked.{asked, asked_shape};
ghost use Rattle.dr_scan.specs.ScanText.{entries_data, entry_data, scan_text};
ghost use Rattle.dr_scan.specs.Written.{entry_tokens, row_tokens};
ghost use Rattle.dr_writer.specs.Written.{Adds, data_tokens};

use crate::columns_written::columns_written;
use crate::entry_writing::{begin_entry, end_entry};
use crate::row_writing::write_row;
use crate::scan_entry::ScanEntry;
use dr_ask::{Query, ResultFormat, Scan, ScanColumn, Shape};
use dr_base::Row;
use dr_fragment::RowRef;
use json::Writer;
use std::alloc::{AllocError, Global};

/// The text of a scan's entries, as [`scan`](crate::scan) writes it. Of a query that is no scan it is that of no entries. The
/// only error is that memory ran out. It takes time by the bytes of the text.
pub fn scan_text(alloc: Global, query: &Query, entries: &[ScanEntry]) -> Result<Vec<u8>, AllocError>
    ensures { IfOk result (λ text. text.items ≡ scan_text (asked query.now) entries.now) }
{
    let mut out = Writer::new(Vec::new(alloc));
    write_list(alloc, &mut out, &query.shape, entries)?;
    Ok(out.into_inner())
}

/// Writes the list of the entries.
fn write_list(
    alloc: Global,
    out: &mut Writer,
    shape: &Shape,
    entries: &[ScanEntry],
) -> Result<(), AllocError>
    ensures { Adds result out.old out.new (data_tokens (array (items_of (entries_data (asked_shape shape.now) entries.now)))) }
{
    out.begin_array()?;
    write_by_shape(alloc, out, shape, entries)?;
    out.end_array()
}

fn write_by_shape(
    alloc: Global,
    out: &mut Writer,
    shape: &Shape,
    entries: &[ScanEntry],
) -> Result<(), AllocError>
    ensures { Adds result out.old out.new (flat_map data_tokens (entries_data (asked_shape shape.now) entries.now)) }
{
    match shape {
        Shape::Scan(scan) => write_all(alloc, out, scan, entries),
        Shape::Timeseries(_) | Shape::GroupBy(_) => Ok(()),
    }
}

fn write_all(
    alloc: Global,
    out: &mut Writer,
    scan: &Scan,
    entries: &[ScanEntry],
) -> Result<(), AllocError>
    ensures { Adds result out.old out.new (flat_map data_tokens (map (entry_data scan.now) entries.now)) }
{
    let columns = columns_written(alloc, scan)?;
    write_entries(out, scan, columns.as_slice(), entries)
}

fn write_entries(
    out: &mut Writer,
    scan: &Scan,
    columns: &[ScanColumn],
    entries: &[ScanEntry],
) -> Result<(), AllocError>
    ensures { Adds result out.old out.new (flat_map (entry_tokens scan.now columns.now) entries.now) }
{
    for entry in entries {
        write_entry(out, scan, columns, entry)?;
    }
    Ok(())
}

fn write_entry(
    out: &mut Writer,
    scan: &Scan,
    columns: &[ScanColumn],
    entry: &ScanEntry,
) -> Result<(), AllocError>
    ensures { Adds result out.old out.new (entry_tokens scan.now columns.now entry.now) }
{
    begin_entry(out, scan.columns.as_slice())?;
    write_rows(out, scan.result_format, columns, entry.rows.as_slice())?;
    end_entry(out, entry.segment_id.as_ref())
}

fn write_rows(
    out: &mut Writer,
    format: ResultFormat,
    columns: &[ScanColumn],
    rows: &[Row],
) -> Result<(), AllocError>
    ensures { Adds result out.old out.new (flat_map (row_tokens format columns.now) rows.now) }
{
    for row in rows {
        write_row(out, format, columns, &RowRef::of_row(row))?;
    }
    Ok(())
}
