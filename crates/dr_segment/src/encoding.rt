ghost use Rattle.std.specs.Prelude.{◌≡◌, ◌≤◌, length, IfOk, OnOk};
ghost use Rattle.dr_base.specs.Reading.{GivesUnless};
ghost use Rattle.dr_image.specs.Image.{with_digest, bytes_of};
ghost use Rattle.dr_segment.specs.Encoding.{sealed, encoded, bounded, is_memory};
ghost use Rattle.dr_segment.specs.Tables.{table_seen, StandForRows};
ghost use Rattle.dr_image.specs.Laws.{sealed_by};

use crate::columns::Columns;
use crate::gathering::columns_of;
use crate::head::{Head, put_head};
use crate::size::image_size;
use crate::writing::{put_dimensions, put_longs, put_metrics};
use dr_base::{Row, Text};
use dr_image::ImageError;
use dr_schema::Schema;
use sha2::{Digest, Sha256};
use std::alloc::{AllocError, Global};

// The times of more rows than these have more bytes than an image may.
const MOST_ROWS: usize = 134_217_728;

/// The image of the rows of a range of a chunk: the times in milliseconds since the epoch, the metrics in the order of the
/// schema, and for each dimension the distinct values, ascending by their UTF-8 bytes, the number of each row's value, and
/// the rows of each value. A row that lacks a dimension or a metric has an empty text or 0 there. Refusals: 59
/// `ImageTooLarge` exactly where the image has more than the schema's `max_image_bytes`.
///
/// It takes time by the bytes of the rows and of the image, and n log n of the distinct values of a dimension: each row's value
/// is hashed once. Beside the image, whose memory is taken at once and only where it isn't too large, it takes memory
/// by its columns: 8 bytes for a time or the value of a metric, 4 for a row's value in a dimension, and some 60 for each distinct
/// value.
pub fn encode(
    alloc: Global,
    schema: &Schema,
    chunk: i64,
    from: u64,
    to: u64,
    rows: &[Row],
) -> Result<Vec<u8>, ImageError>
    ensures { GivesUnless is_memory (λ bytes. bytes.items) result (encoded schema.now.limits.max_image_bytes (sealed schema.now chunk from to rows.now)) }
{
    let _ = schema.fields();
    if rows.len() > MOST_ROWS {
        return Err(ImageError::ImageTooLarge);
    }
    let empty = Text::from_str(alloc, "")?;
    let columns = columns_of(alloc, schema, chunk, from, to, rows, &empty)?;
    written(alloc, schema.limits().max_image_bytes, &columns)
}

/// The image of rows that are given by their columns, as `encode` writes it. The columns stand for rows: each metric has as many
/// values, and each dimension as many numbers, as there are times; the values of a dimension ascend, and each is that of some row.
/// Refusals: 59 `ImageTooLarge` exactly where the image has more than `most` bytes, which are at most 1073741824.
///
/// It takes time by the bytes of the image, whose memory is taken at once and only where it isn't too large. Beside it, it takes 4
/// bytes for each row and 8 for each value of one dimension after another.
pub fn encode_columns(alloc: Global, most: u64, columns: &Columns) -> Result<Vec<u8>, ImageError>
    requires bound { most ≤ 1073741824 }
    requires rows { StandForRows (table_seen columns.now) }
    ensures { GivesUnless is_memory (λ bytes. bytes.items) result (encoded most (sealed_by (table_seen columns.now))) }
{
    written(alloc, most, columns)
}

// The image of columns, where it isn't too large.
fn written(alloc: Global, most: u64, columns: &Columns) -> Result<Vec<u8>, ImageError>
    requires { most ≤ 1073741824 }
    ensures { GivesUnless is_memory (λ bytes. bytes.items) result (bounded most (bytes_of (table_seen columns.now))) }
{
    let size = image_size(columns);
    if size > most {
        return Err(ImageError::ImageTooLarge);
    }
    let bytes = image_of(alloc, columns, size)?;
    Ok(bytes)
}

// The image of columns, which has so many bytes.
fn image_of(alloc: Global, columns: &Columns, size: u64) -> Result<Vec<u8>, AllocError>
    requires is { size ≡ length (bytes_of (table_seen columns.now)) }
    requires few { size ≤ 1073741824 }
    ensures { IfOk result (λ bytes. bytes.items ≡ bytes_of (table_seen columns.now)) }
{
    let head = Head {
        rollup: columns.rollup,
        size,
        chunk: columns.chunk,
        from: columns.from,
        to: columns.to,
        dims: columns.dims.len(),
        metrics: columns.metrics.len(),
        rows: columns.times.len(),
    };
    let mut bytes = Vec::with_capacity(alloc, size as usize)?;
    put_head(&mut bytes, &head)?;
    put_longs(&mut bytes, &columns.times)?;
    put_metrics(&mut bytes, &columns.metrics)?;
    put_dimensions(alloc, &mut bytes, &columns.dims)?;
    put_digest(&mut bytes)?;
    Ok(bytes)
}

// Puts the digest of bytes behind them (SHA-256, FIPS 180-4).
fn put_digest(bytes: &mut Vec<u8>) -> Result<(), AllocError>
    ensures { OnOk result (bytes.new.items ≡ with_digest bytes.old.items) }
{
    let mut hasher = Sha256::new();
    hasher.update(bytes.as_slice());
    let digest = hasher.finalize();
    bytes.extend_from_slice(&digest)?;
    Ok(())
}
