ghost use Rattle.std.specs.Prelude.{◌≡◌, ◌≤◌, length};
ghost use Rattle.std.specs.List.{list_all};
ghost use Rattle.dr_image.specs.Layout.{parts_in, read_table};
ghost use Rattle.dr_image.specs.Opening.{has_digest, filled, is_dictionary, numbers_fit, times_fit, is_index};

use crate::contents::{do_numbers_fit, do_times_fit, has_dictionary, has_index};
use crate::image_error::ImageError;
use crate::layout::Layout;
use crate::ranking::do_ranks_fit;
use sha2::{Digest, Sha256};

// Whether the last 32 bytes are the digest of all before.
pub(crate) fn is_undamaged(bytes: &[u8]) -> bool
    requires { 32 ≤ length bytes.now }
    ensures { result ≡ has_digest bytes.now }
{
    let (body, digest) = bytes.split_at(bytes.len() - 32);
    let mut hasher = Sha256::new();
    hasher.update(body);
    digest == hasher.finalize().as_slice()
}

// The checks of what the columns hold.
#[tactic(auto, unfolding(crate::specs::Opening::filled))]
pub(crate) fn check_contents(layout: &Layout) -> Result<(), ImageError>
    ensures { result ≡ filled layout.now.bytes.now }
{
    if !are_dictionaries(layout) {
        return Err(ImageError::DictOrder);
    }
    if !are_numbers(layout) {
        return Err(ImageError::NumberOutOfDict);
    }
    if !are_times(layout) {
        return Err(ImageError::RowOrder);
    }
    if !do_ranks_fit(layout) {
        return Err(ImageError::RowOrder);
    }
    if !are_indices(layout) {
        return Err(ImageError::BadIndex);
    }
    Ok(())
}

fn are_dictionaries(layout: &Layout) -> bool
    ensures { result ≡ list_all is_dictionary (parts_in layout.now.bytes.now) }
{
    for d in 0..layout.dims() {
        if !has_dictionary(&layout.part(d)) {
            return false;
        }
    }
    true
}

fn are_numbers(layout: &Layout) -> bool
    ensures { result ≡ list_all numbers_fit (parts_in layout.now.bytes.now) }
{
    for d in 0..layout.dims() {
        if !do_numbers_fit(&layout.part(d)) {
            return false;
        }
    }
    true
}

fn are_times(layout: &Layout) -> bool
    ensures { result ≡ times_fit (read_table layout.now.bytes.now).chunk (read_table layout.now.bytes.now).times }
{
    do_times_fit(layout.header().chunk, layout.times())
}

fn are_indices(layout: &Layout) -> bool
    ensures { result ≡ list_all is_index (parts_in layout.now.bytes.now) }
{
    for d in 0..layout.dims() {
        if !has_index(&layout.part(d)) {
            return false;
        }
    }
    true
}
