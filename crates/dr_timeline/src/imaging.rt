ghost use Rattle.std.specs.Prelude.{◌≡◌, IfOk, IfSome, IsTrue};
ghost use Rattle.dr_base.specs.Reading.{GivesUnless, passed};
ghost use Rattle.dr_image.specs.Image.{image};
ghost use Rattle.dr_image.specs.Laws.{sealed_by};
ghost use Rattle.dr_segment.specs.Encoding.{encoded};
ghost use Rattle.dr_fragment.specs.Ranged.{range_in};
ghost use Rattle.dr_merge.specs.Joined.{sealed_fragment};
ghost use Rattle.dr_timeline.specs.Imaging.{image_of, not_written};
ghost use Rattle.dr_timeline.specs.Refusal.{is_memory};

use crate::timeline_error::TimelineError;
use dr_base::Row;
use dr_fragment::{Form, LyingRows, SharedFragment};
use dr_image::{ImageError, SegmentView};
use dr_schema::Schema;
use dr_segment::encode;
use std::alloc::{AllocError, Global};

/// The image of a fragment under a schema. Where the fragment is an image that was written under it, these are its bytes, and else
/// they are written now. Refusals: 59 `ImageTooLarge` exactly where they are more than the schema's `max_image_bytes`.
pub(crate) fn image_of(
    alloc: Global,
    schema: &Schema,
    fragment: &SharedFragment,
) -> Result<Vec<u8>, TimelineError>
    ensures { GivesUnless is_memory (λ bytes. bytes.items) result (image_of schema.now fragment.now) }
{
    if let Some(bytes) = kept_image(schema, fragment) {
        return bounded_copy(alloc, schema, fragment, bytes);
    }
    if let Form::Rows(rows) = fragment.form() {
        return written(alloc, schema, fragment, rows);
    }
    let rows = copies(alloc, &fragment.ordered()?)?;
    written(alloc, schema, fragment, &rows)
}

// The bytes of a fragment that is an image written under that schema.
fn kept_image<'a>(schema: &Schema, fragment: &'a SharedFragment) -> Option<&'a [u8]>
    ensures { IfSome result (λ bytes. bytes.now ≡ image (sealed_fragment schema.now fragment.now)) }
{
    let Some(view) = fragment.view() else {
        return None;
    };
    if !has_columns_of(&view, schema) {
        return None;
    }
    Some(view.as_bytes())
}

// Whether an image has as many dimensions and metrics as a schema, and rows rolled up as it says.
fn has_columns_of(view: &SegmentView, schema: &Schema) -> bool
    ensures { IsTrue result → sealed_by view.now ≡ sealed_fragment schema.now (range_in view.now) }
{
    view.rollup() == schema.rollup()
        && view.dimension_count() == schema.dimensions().len()
        && view.metric_count() == schema.metrics().len()
}

// A copy of the image of a fragment, where it isn't too large.
fn bounded_copy(
    alloc: Global,
    schema: &Schema,
    fragment: &SharedFragment,
    bytes: &[u8],
) -> Result<Vec<u8>, TimelineError>
    requires { bytes.now ≡ image (sealed_fragment schema.now fragment.now) }
    ensures { GivesUnless is_memory (λ bytes. bytes.items) result (image_of schema.now fragment.now) }
{
    if bytes.len() as u64 > schema.limits().max_image_bytes {
        return Err(TimelineError::ImageTooLarge);
    }
    let mut copy = Vec::with_capacity(alloc, bytes.len())?;
    copy.extend_from_slice(bytes)?;
    Ok(copy)
}

// The image of a fragment of these rows, written now.
fn written(
    alloc: Global,
    schema: &Schema,
    fragment: &SharedFragment,
    rows: &[Row],
) -> Result<Vec<u8>, TimelineError>
    requires { rows.now ≡ fragment.now.rows }
    ensures { GivesUnless is_memory (λ bytes. bytes.items) result (passed not_written (encoded schema.now.limits.max_image_bytes (sealed_fragment schema.now fragment.now))) }
{
    let (from, to) = fragment.range();
    match encode(
        alloc,
        schema,
        fragment.chunk(),
        from as u64,
        to as u64,
        rows,
    ) {
        Ok(bytes) => Ok(bytes),
        Err(error) => Err(not_written(error)),
    }
}

// Nothing but memory and the size of the image is refused where one is written.
fn not_written(error: ImageError) -> TimelineError
    ensures { result ≡ not_written error }
{
    match error {
        ImageError::ImageTooLarge => TimelineError::ImageTooLarge,
        _ => TimelineError::NoMemory,
    }
}

fn copies(alloc: Global, rows: &LyingRows) -> Result<Vec<Row>, AllocError>
    ensures { IfOk result (λ copies. copies.items ≡ rows.now) }
{
    let mut copies = Vec::with_capacity(alloc, rows.len())?;
    for i in 0..rows.len() {
        copies.push(rows.row(i).copy(alloc)?)?;
    }
    Ok(copies)
}
