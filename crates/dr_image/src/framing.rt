ghost use Rattle.std.specs.Prelude.{◌≡◌, ◌+◌, ◌≤◌, true, length, drop, is_some, IfSome, IfOk};
ghost use Rattle.std.specs.Int.{w64};
ghost use Rattle.dr_image.specs.Words.{word_at};
ghost use Rattle.dr_image.specs.Layout.{parts_fill, header_of};
ghost use Rattle.dr_image.specs.Starts.{AreStarts};
ghost use Rattle.dr_image.specs.Opening.{headed, is_version, is_length, counts_fit};

use crate::header::{Header, read_header};
use crate::image_error::ImageError;
use crate::part::size_of_part;
use crate::words::{word16, word32, word64};

// The most bytes that an image has.
const MOST_BYTES: u64 = 1_073_741_824;

// The numbers in front of bytes whose marks, length and counts are those of an image.
#[tactic(auto, unfolding(crate::specs::Opening::headed))]
pub(crate) fn read_head(bytes: &[u8]) -> Result<Header, ImageError>
    ensures value { result ≡ headed bytes.now }
    ensures long { IfOk result (λ header. 80 ≤ length bytes.now) }
    ensures head { IfOk result (λ header. header ≡ header_of bytes.now) }
    ensures counts { IfOk result (λ header. counts_fit header ≡ true) }
{
    if bytes.len() < 16 {
        return Err(ImageError::Truncated);
    }
    if word32(bytes, 0) != 0x4753_5244 {
        return Err(ImageError::BadMagic);
    }
    if !do_version(bytes) {
        return Err(ImageError::BadVersion);
    }
    if word64(bytes, 8) > bytes.len() as u64 {
        return Err(ImageError::Truncated);
    }
    if !do_length(bytes) {
        return Err(ImageError::BadLength);
    }
    let header = read_header(bytes);
    if !do_counts_fit(&header) {
        return Err(ImageError::BadLength);
    }
    Ok(header)
}

// Whether the version and the mark of rollup are known.
fn do_version(bytes: &[u8]) -> bool
    requires { 16 ≤ length bytes.now }
    ensures { result ≡ is_version bytes.now }
{
    word16(bytes, 4) == 1 && word16(bytes, 6) <= 1
}

// Whether the bytes are as many as they say, and an image may have so many.
fn do_length(bytes: &[u8]) -> bool
    requires { 16 ≤ length bytes.now }
    ensures value { result ≡ is_length bytes.now }
    ensures long { result ≡ true → 80 ≤ word_at w64 8 bytes.now }
{
    let length = word64(bytes, 8);
    bytes.len() as u64 <= length && (length >= 80 && length <= MOST_BYTES)
}

// Whether there may be so many rows, dimensions and metrics.
fn do_counts_fit(header: &Header) -> bool
    ensures { result ≡ counts_fit header.now }
{
    header.rows >= 1
        && (header.dims >= 1
            && (header.dims <= 64
                && (header.metrics <= 64
                    && (header.from < header.to
                        && (header.rows as u64 <= header.to - header.from
                            && (header.rollup || header.rows as u64 == header.to - header.from))))))
}

// Where the dimensions begin that fill the bytes from a place up to the digest; none where they don't.
pub(crate) fn starts_of(bytes: &[u8], at: usize, dims: usize, rows: usize) -> Option<[usize; 64]>
    requires within { at + 32 ≤ length bytes.now }
    requires few { dims ≤ 64 }
    requires few_rows { rows ≤ 4294967295 }
    ensures fills { is_some result ≡ parts_fill dims rows (drop at bytes.now) }
    ensures starts { IfSome result (λ starts. AreStarts bytes.now at rows dims starts) }
{
    let end = bytes.len() - 32;
    let mut starts = [0; 64];
    let mut place = at;
    for d in 0..dims {
        if end - place < 8 {
            return None;
        }
        let size = size_of_part(bytes, place, rows);
        if end - place < size {
            return None;
        }
        starts[d] = place;
        place += size;
    }
    if place == end {
        return Some(starts);
    }
    None
}
