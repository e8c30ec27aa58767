ghost use Rattle.std.specs.Prelude.{◌<◌, length, map};
ghost use Rattle.dr_image.specs.Table.{row_at};
ghost use Rattle.dr_dump.specs.Dump.{dimension_data, row_data, whole_number};
ghost use Rattle.dr_dump.specs.Written.{Adds, all_tokens, data_tokens};

use dr_image::SegmentView;
use json::Writer;
use std::alloc::AllocError;

/// Writes a row as a list: its time, its dimension values, its metrics.
pub(crate) fn write_row(out: &mut Writer, view: &SegmentView, i: usize) -> Result<(), AllocError>
    requires { i < length view.now.times }
    ensures { Adds result out.old out.new (data_tokens (row_data (row_at view.now i))) }
{
    out.begin_array()?;
    out.i64(view.time(i))?;
    write_dimensions(out, view, i)?;
    write_metrics(out, view, i)?;
    out.end_array()
}

fn write_dimensions(out: &mut Writer, view: &SegmentView, i: usize) -> Result<(), AllocError>
    requires { i < length view.now.times }
    ensures { Adds result out.old out.new (all_tokens (map dimension_data (row_at view.now i).key.dims)) }
{
    for d in 0..view.dimension_count() {
        write_dimension(out, view.dim(d, i))?;
    }
    Ok(())
}

fn write_metrics(out: &mut Writer, view: &SegmentView, i: usize) -> Result<(), AllocError>
    requires { i < length view.now.times }
    ensures { Adds result out.old out.new (all_tokens (map whole_number (row_at view.now i).metrics)) }
{
    for m in 0..view.metric_count() {
        out.i64(view.metric(m, i))?;
    }
    Ok(())
}

/// Writes the value of a dimension: `null` for the empty text.
fn write_dimension(out: &mut Writer, text: &str) -> Result<(), AllocError>
    ensures { Adds result out.old out.new (data_tokens (dimension_data text.now)) }
{
    if text.is_empty() {
        return out.null();
    }
    out.string(text)
}
