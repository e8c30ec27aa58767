ghost use Rattle.std.specs.Prelude.{map};
ghost use Rattle.serde_json.specs.Data.{array, object};
ghost use Rattle.serde_json.specs.View.{items_of};
ghost use Rattle.dr_scan.specs.ScanText.{data_in};
ghost use Rattle.dr_scan.specs.Written.{members_in, row_tokens};
ghost use Rattle.dr_writer.specs.Written.{Adds, data_tokens};

use crate::row_reading::{dim, metric};
use dr_ask::{ColumnSource, ResultFormat, ScanColumn};
use dr_fragment::RowRef;
use dr_writer::write_dimension;
use json::Writer;
use std::alloc::AllocError;

/// Writes a row: these columns one after the other.
pub(crate) fn write_row(
    out: &mut Writer,
    format: ResultFormat,
    columns: &[ScanColumn],
    row: &RowRef<'_>,
) -> Result<(), AllocError>
    ensures { Adds result out.old out.new (row_tokens format columns.now row.now) }
{
    match format {
        ResultFormat::List => write_object(out, columns, row),
        ResultFormat::CompactedList => write_list(out, columns, row),
    }
}

fn write_object(
    out: &mut Writer,
    columns: &[ScanColumn],
    row: &RowRef<'_>,
) -> Result<(), AllocError>
    ensures { Adds result out.old out.new (data_tokens (object (members_in columns.now row.now))) }
{
    out.begin_object()?;
    for column in columns {
        out.key(column.name.as_str())?;
        write_cell(out, column.source, row)?;
    }
    out.end_object()
}

fn write_list(out: &mut Writer, columns: &[ScanColumn], row: &RowRef<'_>) -> Result<(), AllocError>
    ensures { Adds result out.old out.new (data_tokens (array (items_of (map (λ c. data_in c.source row.now) columns.now)))) }
{
    out.begin_array()?;
    for column in columns {
        write_cell(out, column.source, row)?;
    }
    out.end_array()
}

/// Writes what a column has of a row.
fn write_cell(out: &mut Writer, source: ColumnSource, row: &RowRef<'_>) -> Result<(), AllocError>
    ensures { Adds result out.old out.new (data_tokens (data_in source row.now)) }
{
    match source {
        ColumnSource::Time => out.i64(row.time()),
        ColumnSource::Dimension(place) => write_dimension(out, dim(row, place)),
        ColumnSource::Metric(place) => out.i64(metric(row, place)),
        ColumnSource::Unknown => out.null(),
    }
}
