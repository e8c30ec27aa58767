ghost use Rattle.std.specs.Prelude.{◌≡◌, IfOk};
ghost use Rattle.std.specs.Str.{chars};
ghost use Rattle.dr_like.specs.Like.{fits};

use crate::by_places::fits_by_places;
use std::alloc::{AllocError, Global};

// From how many pairs of a letter of such pieces and a character of the text on these are told of many places at once.
const MANY_PAIRS: usize = 1 << 24;

/// Whether the whole text fits a pattern, as `fits` of `dr_like` finds it, or as [`fits_by_places`], where that is sooner. The only
/// error is that memory ran out. What `fits` of `dr_like` may take the product of both for are pieces between two `%` that have a `_`
/// behind their first other character. Where these have more than 2^24 bytes, times those of the text, it takes the time and memory of
/// [`fits_by_places`]; else no memory, and time by the bytes of both and by that product.
pub fn fits_soonest(alloc: Global, pattern: &str, text: &str) -> Result<bool, AllocError>
    ensures { IfOk result (λ found. found ≡ fits (chars pattern.now) (chars text.now)) }
{
    if is_long_for(pattern, text) {
        return fits_by_places(alloc, pattern, text);
    }
    Ok(dr_like::fits(pattern, text))
}

// Whether going from place to place might take long.
fn is_long_for(pattern: &str, text: &str) -> bool {
    if pattern.len().saturating_mul(text.len()) <= MANY_PAIRS {
        return false;
    }
    gapped_bytes(pattern).saturating_mul(text.len()) > MANY_PAIRS
}

// The bytes of the pieces between two `%` that have a `_` behind their first other character.
fn gapped_bytes(pattern: &str) -> usize {
    let mut bytes = 0usize;
    let mut last = 0usize;
    let mut is_first = true;
    for piece in pattern.split('%') {
        bytes = bytes.saturating_add(last);
        last = if is_first { 0 } else { bytes_if_gapped(piece) };
        is_first = false;
    }
    bytes
}

fn bytes_if_gapped(piece: &str) -> usize {
    if piece.trim_start_matches('_').contains('_') {
        piece.len()
    } else {
        0
    }
}
