ghost use Rattle.std.specs.Prelude.{map, option_map};
ghost use Rattle.serde_json.specs.Data.{array, string};
ghost use Rattle.serde_json.specs.View.{items_of};
ghost use Rattle.dr_scan.specs.ScanText.{identifier_data};
ghost use Rattle.dr_scan.specs.Written.{entry_back, entry_front};
ghost use Rattle.dr_writer.specs.Written.{Adds, data_tokens};

use dr_ask::ScanColumn;
use dr_base::Text;
use json::Writer;
use std::alloc::AllocError;

/// Writes what stands before the rows of an entry: `{"columns":[..],"events":[`.
pub(crate) fn begin_entry(out: &mut Writer, columns: &[ScanColumn]) -> Result<(), AllocError>
    ensures { Adds result out.old out.new (entry_front columns.now) }
{
    out.begin_object()?;
    out.key("columns")?;
    write_names(out, columns)?;
    out.key("events")?;
    out.begin_array()
}

fn write_names(out: &mut Writer, columns: &[ScanColumn]) -> Result<(), AllocError>
    ensures { Adds result out.old out.new (data_tokens (array (items_of (map (λ c. string c.name) columns.now)))) }
{
    out.begin_array()?;
    for column in columns {
        out.string(column.name.as_str())?;
    }
    out.end_array()
}

/// Writes what stands behind the rows of an entry: `],"segmentId":".."}`.
pub(crate) fn end_entry(out: &mut Writer, segment_id: Option<&Text>) -> Result<(), AllocError>
    ensures { Adds result out.old out.new (entry_back (option_map (λ t. t.now) segment_id.entry)) }
{
    out.end_array()?;
    out.key("segmentId")?;
    write_identifier(out, segment_id)?;
    out.end_object()
}

fn write_identifier(out: &mut Writer, segment_id: Option<&Text>) -> Result<(), AllocError>
    ensures { Adds result out.old out.new (data_tokens (identifier_data (option_map (λ t. t.now) segment_id.entry))) }
{
    match segment_id {
        Some(text) => out.string(text.as_str()),
        None => out.null(),
    }
}
