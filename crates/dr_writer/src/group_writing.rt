ghost use Rattle.std.specs.Prelude.{◌≡◌, Some, codes, option_map, slice_get};
ghost use Rattle.serde_json.specs.Data.{string, object};
ghost use Rattle.dr_answers.specs.Answer.{dimension_data};
ghost use Rattle.dr_ask.specs.Asked.{asked_shape};
ghost use Rattle.dr_time.specs.Printed.{instant_text};
ghost use Rattle.dr_writer.specs.Outputs.{data_at, members_at};
ghost use Rattle.dr_writer.specs.Written.{Adds, data_tokens, member_tokens, group_data, result_object, event_object};

use crate::output::{Output, Place};
use crate::stamp::Stamp;
use dr_answers::ResultRow;
use dr_ask::Shape;
use dr_base::Text;
use json::Writer;
use std::alloc::AllocError;

/// Writes a group: `{"event":{..},"timestamp":"..","version":"v1"}` of a groupBy, `{"result":{..},"timestamp":".."}` of a
/// timeseries.
pub(crate) fn write_group(
    out: &mut Writer,
    shape: &Shape,
    outputs: &[Output],
    group: &ResultRow,
    stamp: &Stamp,
) -> Result<(), AllocError>
    requires { stamp.now.time ≡ group.now.time }
    ensures { Adds result out.old out.new (data_tokens (group_data (asked_shape shape.now) (members_at group.now outputs.now) group.now.time)) }
{
    match shape {
        Shape::Timeseries(_) | Shape::Scan(_) => write_result(out, outputs, group, stamp),
        Shape::GroupBy(_) => write_event(out, outputs, group, stamp),
    }
}

fn write_result(
    out: &mut Writer,
    outputs: &[Output],
    group: &ResultRow,
    stamp: &Stamp,
) -> Result<(), AllocError>
    ensures { Adds result out.old out.new (data_tokens (result_object (members_at group.now outputs.now) stamp.now.time)) }
{
    out.begin_object()?;
    out.key("result")?;
    write_members(out, outputs, group)?;
    write_stamp(out, stamp)?;
    out.end_object()
}

fn write_event(
    out: &mut Writer,
    outputs: &[Output],
    group: &ResultRow,
    stamp: &Stamp,
) -> Result<(), AllocError>
    ensures { Adds result out.old out.new (data_tokens (event_object (members_at group.now outputs.now) stamp.now.time)) }
{
    out.begin_object()?;
    out.key("event")?;
    write_members(out, outputs, group)?;
    write_stamp(out, stamp)?;
    write_version(out)?;
    out.end_object()
}

/// Writes the start of the bucket.
fn write_stamp(out: &mut Writer, stamp: &Stamp) -> Result<(), AllocError>
    ensures { Adds result out.old out.new (member_tokens (codes "timestamp") (Some (string (instant_text stamp.now.time)))) }
{
    write_text(out, "timestamp", stamp.text.as_str())
}

fn write_version(out: &mut Writer) -> Result<(), AllocError>
    ensures { Adds result out.old out.new (member_tokens (codes "version") (Some (string (codes "v1")))) }
{
    write_text(out, "version", "v1")
}

/// Writes a member that is a text.
fn write_text(out: &mut Writer, name: &str, text: &str) -> Result<(), AllocError>
    ensures { Adds result out.old out.new (member_tokens name.now (Some (string text.now))) }
{
    out.key(name)?;
    out.string(text)
}

/// Writes the object of the outputs that a group has a value of.
fn write_members(out: &mut Writer, outputs: &[Output], group: &ResultRow) -> Result<(), AllocError>
    ensures { Adds result out.old out.new (data_tokens (object (members_at group.now outputs.now))) }
{
    out.begin_object()?;
    for output in outputs {
        write_member(out, output, group)?;
    }
    out.end_object()
}

/// Writes an output under its name, where the group has a value of it.
fn write_member(out: &mut Writer, output: &Output, group: &ResultRow) -> Result<(), AllocError>
    ensures { Adds result out.old out.new (member_tokens output.now.name (data_at group.now output.now.place)) }
{
    match output.place {
        Place::Dim(i) => {
            let Some(text) = dim_at(group, i) else {
                return Ok(());
            };
            out.key(output.name.as_str())?;
            write_dimension(out, text.as_str())
        }
        Place::Value(i) => {
            let Some(value) = group.values.get(i) else {
                return Ok(());
            };
            out.key(output.name.as_str())?;
            out.i64(value)
        }
    }
}

/// The dimension value at a place; none past the end.
fn dim_at(group: &ResultRow, place: usize) -> Option<&Text>
    ensures { option_map (λ t. t.now) result ≡ slice_get group.now.dims place }
{
    group.dims.as_slice().get(place)
}

/// Writes the value of a dimension: `null` for the empty text. The only error is that memory ran out. It takes time by the bytes
/// of the text.
pub fn write_dimension(out: &mut Writer, text: &str) -> Result<(), AllocError>
    ensures { Adds result out.old out.new (data_tokens (dimension_data text.now)) }
{
    if text.is_empty() {
        return out.null();
    }
    out.string(text)
}
