ghost use Rattle.std.specs.Prelude.{◌≡◌, ◌+◌, ◌*◌, ◌≤◌, length, drop};
ghost use Rattle.dr_image.specs.Layout.{part_of, part_with, part_size};
ghost use Rattle.dr_image.specs.Parts.{part_seen, IsEven};

use crate::words::{cells4, word32};

// A dimension as it lies in an image.
#[derive(Clone, Copy)]
pub(crate) struct Part<'a> {
    pub(crate) ends: &'a [[u8; 4]],
    pub(crate) texts: &'a [u8],
    pub(crate) numbers: &'a [[u8; 4]],
    pub(crate) list_ends: &'a [[u8; 4]],
    pub(crate) rows: &'a [[u8; 4]],
}

// How many bytes the dimension at a place has.
#[tactic(auto, using(crate::proofs::PartLemmas::front, crate::proofs::PartLemmas::second), unfolding(crate::specs::Layout::part_size))]
pub(crate) fn size_of_part(bytes: &[u8], at: usize, rows: usize) -> usize
    requires within { at + 8 ≤ length bytes.now }
    requires few_rows { rows ≤ 4294967295 }
    ensures value { result ≡ part_size rows (drop at bytes.now) }
    ensures some { 8 ≤ result }
    ensures bound { result ≤ 90194313216 }
{
    let values = word32(bytes, at) as usize;
    let texts = word32(bytes, at + 4) as usize;
    8 + 8 * values + texts + 8 * rows
}

// The dimension at a place.
#[tactic(auto, using(crate::proofs::PartLemmas::front, crate::proofs::PartLemmas::second), unfolding(crate::specs::Layout::part_size))]
pub(crate) fn part_at(bytes: &[u8], at: usize, rows: usize) -> Part<'_>
    requires front { at + 8 ≤ length bytes.now }
    requires within { at + part_size rows (drop at bytes.now) ≤ length bytes.now }
    ensures seen { part_seen result ≡ part_of rows (drop at bytes.now) }
    ensures even { IsEven rows result }
{
    let values = word32(bytes, at) as usize;
    let texts = word32(bytes, at + 4) as usize;
    part_within(bytes, at + 8, values, texts, rows)
}

// The dimension behind its two lengths.
fn part_within(bytes: &[u8], at: usize, values: usize, texts: usize, rows: usize) -> Part<'_>
    requires { at + 8 * values + texts + 8 * rows ≤ length bytes.now }
    ensures seen { part_seen result ≡ part_with values texts rows (drop at bytes.now) }
    ensures even { IsEven rows result }
{
    let numbers = at + 4 * values + texts;
    let lists = numbers + 4 * rows;
    Part {
        ends: cells4(bytes, at, values),
        texts: &bytes[at + 4 * values..numbers],
        numbers: cells4(bytes, numbers, rows),
        list_ends: cells4(bytes, lists, values),
        rows: cells4(bytes, lists + 4 * values, rows),
    }
}
