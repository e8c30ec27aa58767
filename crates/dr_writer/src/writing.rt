ghost use Rattle.std.specs.Prelude.{◌≡◌, IfOk, bytes_eq};
ghost use Rattle.std.specs.List.{AllByRecursion, IsDistinct};
ghost use Rattle.serde_json.specs.Data.{array};
ghost use Rattle.serde_json.specs.View.{items_of};
ghost use Rattle.dr_answers.specs.Answer.{text_of};
ghost use Rattle.dr_ask.specs.Asked.{asked, asked_shape};
ghost use Rattle.dr_ask.specs.MadeFor.{outputs};
ghost use Rattle.dr_time.specs.Printed.{IsPrintable};
ghost use Rattle.dr_writer.specs.Written.{Adds, data_tokens, groups_data};

use crate::group_writing::write_group;
use crate::ordering::outputs_in_order;
use crate::output::Output;
use crate::stamp::Stamp;
use dr_answers::ResultRow;
use dr_ask::{Query, Shape};
use json::Writer;
use std::alloc::{AllocError, Global};

/// The text of the groups that a query gives, as JSON in UTF-8 without spaces, keys in ascending byte order, an empty dimension
/// value as `null` (RFC 8259; Apache Druid documentation, timeseries and groupBy queries): of a timeseries
/// `[{"result":{..},"timestamp":".."}]`, of a groupBy `[{"event":{..},"timestamp":"..","version":"v1"}]`. An output that a
/// group has no value of is left out. The only error is that memory ran out.
///
/// It takes time by the bytes of the text and, once, by n log n in the outputs. The text grows in one buffer; beside it there are
/// the outputs in the order of their names, and the text of one time.
pub fn text_of(alloc: Global, query: &Query, groups: &[ResultRow]) -> Result<Vec<u8>, AllocError>
    requires distinct { IsDistinct bytes_eq (outputs (asked query.now)) }
    requires printable { AllByRecursion (λ g. IsPrintable g.time) groups.now }
    ensures { IfOk result (λ text. text.items ≡ text_of (asked query.now) groups.now) }
{
    let outputs = outputs_in_order(alloc, query)?;
    let mut out = Writer::new(Vec::new(alloc));
    write_groups(alloc, &mut out, &query.shape, outputs.as_slice(), groups)?;
    Ok(out.into_inner())
}

/// Writes the list of the groups. The text of a time is kept for the groups with the same time that follow.
fn write_groups(
    alloc: Global,
    out: &mut Writer,
    shape: &Shape,
    outputs: &[Output],
    groups: &[ResultRow],
) -> Result<(), AllocError>
    requires { AllByRecursion (λ g. IsPrintable g.time) groups.now }
    ensures { Adds result out.old out.new (data_tokens (array (items_of (groups_data (asked_shape shape.now) outputs.now groups.now)))) }
{
    out.begin_array()?;
    let Some(first) = groups.first() else {
        return out.end_array();
    };
    let mut stamp = Stamp::of(alloc, first.time)?;
    for group in groups {
        if group.time != stamp.time {
            stamp = Stamp::of(alloc, group.time)?;
        }
        write_group(out, shape, outputs, group, &stamp)?;
    }
    out.end_array()
}
