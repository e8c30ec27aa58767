ghost use Rattle.std.specs.Prelude.{◌≡◌, ◌≤◌, ◌∷◌, [], IfOk, IfSome, map};
ghost use Rattle.dr_base.specs.Reading.{GivesUnless};
ghost use Rattle.dr_agg.specs.Rollup.{join};
ghost use Rattle.dr_schema.specs.Columns.{kinds_of};
ghost use Rattle.dr_segment.specs.Encoding.{sealed, encoded};
ghost use Rattle.dr_merge.specs.Joined.{IsJobOf, joined_fragment, sealed_fragment, worked, first_from, last_to};
ghost use Rattle.dr_merge.specs.Refusal.{is_memory, not_written};
ghost use Rattle.dr_base.specs.Reading.{passed};

use crate::combining::rolled_up;
use crate::inputs::{ordered_inputs, rows_of_all};
use crate::job::Job;
use crate::merge_error::MergeError;
use dr_base::Row;
use dr_fragment::{Form, Fragment, SharedFragment, sort};
use dr_image::ImageError;
use dr_rollup::columns_of;
use dr_schema::Schema;
use dr_segment::encode;
use std::alloc::{AllocError, Global};

/// What the inputs of a job are joined to, as an image: the range from the first to the last, and the rows in the order of
/// their keys, with rollup one for each key (Apache Druid documentation, ingestion: merging of persisted segments). It needs no
/// timeline. The job has an input and as many serials as inputs, and these are adjacent ranges of its chunk that each have an
/// image. Refusals: 59 `ImageTooLarge` exactly where the image of the joined range has more than the schema's
/// `max_image_bytes`.
///
/// It takes time by the rows of the inputs and the logarithm of how many inputs there are, for they stand in order already,
/// and what `encode` takes; memory for a reference to each input row, for the joined rows, and what `encode` takes. An only input
/// that is a list of rows is encoded as it lies.
pub fn work(alloc: Global, schema: &Schema, job: &Job) -> Result<Fragment, MergeError>
    requires { IsJobOf schema.now job.now }
    ensures { GivesUnless is_memory (λ fragment. fragment) result (worked schema.now job.now) }
{
    let image = joined_image(alloc, schema, job)?;
    Ok(Fragment::of_known_image(image))
}

// The image of what the inputs are joined to, or 59. The rows of an only input are joined already.
fn joined_image(alloc: Global, schema: &Schema, job: &Job) -> Result<Vec<u8>, MergeError>
    requires { IsJobOf schema.now job.now }
    ensures gives { GivesUnless is_memory (λ bytes. bytes.items) result (passed not_written (encoded schema.now.limits.max_image_bytes (sealed_fragment schema.now (joined_fragment schema.now job.now)))) }
    ensures small { schema.now.limits.max_image_bytes ≤ 1073741824 }
{
    let _ = schema.fields();
    let inputs = job.inputs.as_slice();
    let (from, to) = (first_from(inputs), last_to(inputs));
    if let Some(rows) = rows_alone(inputs) {
        return written(alloc, schema, job.chunk, from, to, rows);
    }
    let rows = joined_rows(alloc, schema, inputs)?;
    written(alloc, schema, job.chunk, from, to, &rows)
}

// The rows of an only input, where they lie as a list.
fn rows_alone(inputs: &[SharedFragment]) -> Option<&[Row]>
    ensures { IfSome result (λ rows. map (λ f. f.rows) inputs.now ≡ rows.now ∷ []) }
{
    if inputs.len() != 1 {
        return None;
    }
    match inputs[0].form() {
        Form::Rows(rows) => Some(rows),
        Form::Image(_) => None,
        Form::Index(_) => None,
    }
}

// The image of a range, or 59.
fn written(
    alloc: Global,
    schema: &Schema,
    chunk: i64,
    from: usize,
    to: usize,
    rows: &[Row],
) -> Result<Vec<u8>, MergeError>
    ensures gives { GivesUnless is_memory (λ bytes. bytes.items) result (passed not_written (encoded schema.now.limits.max_image_bytes (sealed schema.now chunk from to rows.now))) }
    ensures small { schema.now.limits.max_image_bytes ≤ 1073741824 }
{
    let _ = schema.fields();
    match encode(alloc, schema, chunk, from as u64, to as u64, rows) {
        Ok(bytes) => Ok(bytes),
        Err(error) => Err(not_written(error)),
    }
}

// Nothing but memory and the size of the image is refused where one is written.
fn not_written(error: ImageError) -> MergeError
    ensures { result ≡ not_written error }
{
    match error {
        ImageError::ImageTooLarge => MergeError::ImageTooLarge,
        _ => MergeError::NoMemory,
    }
}

fn first_from(inputs: &[SharedFragment]) -> usize
    ensures { result ≡ first_from inputs.now }
{
    match inputs.first() {
        None => 0,
        Some(input) => input.range().0,
    }
}

fn last_to(inputs: &[SharedFragment]) -> usize
    ensures { result ≡ last_to inputs.now }
{
    match inputs.last() {
        None => 0,
        Some(input) => input.range().1,
    }
}

// The join of the rows of the inputs. Each of these stands in order, so the sort only merges them: it keeps what is in order
// and merges it pair by pair.
fn joined_rows(
    alloc: Global,
    schema: &Schema,
    inputs: &[SharedFragment],
) -> Result<Vec<Row>, AllocError>
    ensures { IfOk result (λ rows. rows.items ≡ join schema.now.rollup (kinds_of schema.now) (map (λ f. f.rows) inputs.now)) }
{
    let kinds = columns_of(alloc, schema)?;
    let ordered = ordered_inputs(alloc, inputs)?;
    let mut rows = rows_of_all(alloc, &ordered)?;
    sort(&mut rows)?;
    let rolled = rolled_up(alloc, schema.rollup(), &kinds, &rows)?;
    Ok(rolled)
}
