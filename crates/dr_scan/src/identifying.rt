ghost use Rattle.std.specs.Prelude.{◌≡◌, ◌++◌, IfOk, OnOk, string_bytes};
ghost use Rattle.dr_scan.specs.Identifier.{behind, identifier_of, place_text, version_text};
ghost use Rattle.dr_time.specs.Instant.{IsInstant};

use dr_base::Text;
use dr_schema::Schema;
use dr_time::print_instant;
use std::alloc::{AllocError, Global};

/// The identifier of a segment, `dataSource_start_end_version` (Apache Druid documentation, segments): the chunk with this start,
/// in milliseconds since the epoch, with `v` and the version, or `r` where it is 0, then `_` and the place in the chunk, from 0,
/// where it isn't 0. The end of a chunk may lie in the year 10000. The only error is that memory ran out. It takes time by the
/// bytes of the name.
pub fn identifier(
    alloc: Global,
    schema: &Schema,
    chunk: i64,
    version: u64,
    place: u64,
) -> Result<Text, AllocError>
    requires { IsInstant chunk }
    ensures { IfOk result (λ text. text ≡ identifier_of schema.now chunk version place) }
{
    let mut text = String::from_str(alloc, schema.data_source().as_str())?;
    push_behind(&mut text, print_instant(alloc, chunk)?.as_str())?;
    let end = schema.segment_granularity().bucket_end(chunk);
    push_behind(&mut text, print_instant(alloc, end)?.as_str())?;
    push_behind(&mut text, version_text(alloc, version)?.as_str())?;
    text.push_str(place_text(alloc, place)?.as_str())?;
    Text::from_string(alloc, text)
}

fn push_behind(text: &mut String, part: &str) -> Result<(), AllocError>
    ensures { OnOk result (string_bytes text.new ≡ string_bytes text.old ++ behind part.now) }
{
    text.push('_')?;
    text.push_str(part)
}

fn version_text(alloc: Global, version: u64) -> Result<String, AllocError>
    ensures { IfOk result (λ text. string_bytes text ≡ version_text version) }
{
    if version == 0 {
        return String::from_str(alloc, "r");
    }
    format!(in alloc; "v{version}")
}

fn place_text(alloc: Global, place: u64) -> Result<String, AllocError>
    ensures { IfOk result (λ text. string_bytes text ≡ place_text place) }
{
    if place == 0 {
        return Ok(String::new(alloc));
    }
    format!(in alloc; "_{place}")
}
