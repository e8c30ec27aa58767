ghost use Rattle.std.specs.Prelude.{◌≡◌, ◌-◌, ◌<◌, ◌≤◌, ◌≤ℤ◌, All, [], true, Some, length, map, slice_get, get_or};
ghost use Rattle.dr_image.specs.Words.{word};
ghost use Rattle.dr_image.specs.Pieces.{pieces};
ghost use Rattle.dr_image.specs.Layout.{read_table};
ghost use Rattle.dr_image.specs.Parts.{part_seen};
ghost use Rattle.dr_image.specs.Opening.{is_dictionary, is_index};
ghost use Rattle.dr_image.specs.Checked.{AreChecked, column_at};

use crate::layout::Layout;
use crate::part::Part;
use crate::pieces::{list_piece, text_piece};
use crate::words::{number, signed};
use std::str;

// The time of a row.
#[tactic(auto, using(crate::proofs::ReadingLemmas::dims_seen, crate::proofs::LayoutLemmas::times_seen))]
pub(crate) fn time_at(layout: &Layout, i: usize) -> i64
    requires { i < length (read_table layout.now.bytes.now).times }
    ensures { slice_get (read_table layout.now.bytes.now).times i ≡ Some result }
{
    signed(&layout.times()[i])
}

// The time of the first row, which is the least.
pub(crate) fn least_time(layout: &Layout) -> i64
    requires some { 1 ≤ length (read_table layout.now.bytes.now).times }
    requires checked { AreChecked layout.now.bytes.now }
    ensures value { slice_get (read_table layout.now.bytes.now).times 0 ≡ Some result }
    ensures least { All (λ t. result ≤ℤ t) (read_table layout.now.bytes.now).times }
{
    time_at(layout, 0)
}

// The time of the last row, which is the greatest.
#[tactic(auto, using(crate::proofs::LayoutLemmas::times_seen))]
pub(crate) fn greatest_time(layout: &Layout) -> i64
    requires checked { AreChecked layout.now.bytes.now }
    ensures value { slice_get (read_table layout.now.bytes.now).times (length (read_table layout.now.bytes.now).times - 1) ≡ Some result }
    ensures greatest { All (λ t. t ≤ℤ result) (read_table layout.now.bytes.now).times }
{
    time_at(layout, layout.rows() - 1)
}

// The value of a row in a metric.
#[tactic(auto, using(crate::proofs::ReadingLemmas::dims_seen, crate::proofs::LayoutLemmas::times_seen))]
pub(crate) fn metric_at(layout: &Layout, m: usize, i: usize) -> i64
    requires metric { m < length (read_table layout.now.bytes.now).metrics }
    requires row { i < length (read_table layout.now.bytes.now).times }
    ensures { slice_get (get_or (read_table layout.now.bytes.now).metrics m []) i ≡ Some result }
{
    signed(&layout.metric(m)[i])
}

// How many values a dimension has.
#[tactic(auto, using(crate::proofs::ReadingLemmas::dims_seen, crate::proofs::LayoutLemmas::times_seen))]
pub(crate) fn values_of(layout: &Layout, d: usize) -> usize
    requires { d < length (read_table layout.now.bytes.now).dims }
    ensures { result ≡ length (column_at (read_table layout.now.bytes.now) d).dictionary }
{
    layout.part(d).ends.len()
}

// The number of a row's value in a dimension.
#[tactic(auto, using(crate::proofs::ReadingLemmas::dims_seen, crate::proofs::LayoutLemmas::times_seen))]
pub(crate) fn number_at(layout: &Layout, d: usize, i: usize) -> usize
    requires dimension { d < length (read_table layout.now.bytes.now).dims }
    requires row { i < length (read_table layout.now.bytes.now).times }
    requires checked { AreChecked layout.now.bytes.now }
    ensures value { slice_get (column_at (read_table layout.now.bytes.now) d).numbers i ≡ Some result }
    ensures known { result < length (column_at (read_table layout.now.bytes.now) d).dictionary }
{
    number(&layout.part(d).numbers[i])
}

// The numbers of the rows' values in a dimension.
#[tactic(auto, using(crate::proofs::ReadingLemmas::dims_seen, crate::proofs::LayoutLemmas::times_seen))]
pub(crate) fn numbers_of<'a>(layout: &Layout<'a>, d: usize) -> &'a [[u8; 4]]
    requires { d < length (read_table layout.now.bytes.now).dims }
    ensures { map word result.now ≡ (column_at (read_table layout.now.bytes.now) d).numbers }
{
    layout.part(d).numbers
}

// A value of a dimension.
#[tactic(auto, using(crate::proofs::ReadingLemmas::dims_seen, crate::proofs::LayoutLemmas::times_seen))]
pub(crate) fn value_of<'a>(layout: &Layout<'a>, d: usize, v: usize) -> &'a str
    requires dimension { d < length (read_table layout.now.bytes.now).dims }
    requires value { v < length (column_at (read_table layout.now.bytes.now) d).dictionary }
    requires checked { AreChecked layout.now.bytes.now }
    ensures { slice_get (column_at (read_table layout.now.bytes.now) d).dictionary v ≡ Some result.now }
{
    text_of(layout.part(d), v)
}

// A text of a dictionary.
fn text_of(part: Part<'_>, v: usize) -> &str
    requires fit { is_dictionary (part_seen part) ≡ true }
    requires within { v < length part.ends.now }
    ensures { result.now ≡ get_or (pieces 0 (map word part.entry.ends.now) part.entry.texts.now) v [] }
{
    let text = text_piece(part.ends, part.texts, v);
    unsafe { str::from_utf8_unchecked(text) }
}

// The rows that have a value of a dimension.
#[tactic(auto, using(crate::proofs::ReadingLemmas::dims_seen, crate::proofs::LayoutLemmas::times_seen))]
pub(crate) fn list_of<'a>(layout: &Layout<'a>, d: usize, v: usize) -> &'a [[u8; 4]]
    requires dimension { d < length (read_table layout.now.bytes.now).dims }
    requires value { v < length (column_at (read_table layout.now.bytes.now) d).dictionary }
    requires checked { AreChecked layout.now.bytes.now }
    ensures { slice_get (column_at (read_table layout.now.bytes.now) d).lists v ≡ Some (map word result.now) }
{
    rows_of(layout.part(d), v)
}

fn rows_of(part: Part<'_>, v: usize) -> &[[u8; 4]]
    requires fit { is_index (part_seen part) ≡ true }
    requires within { v < length part.list_ends.now }
    ensures { map word result.now ≡ get_or (pieces 0 (map word part.entry.list_ends.now) (map word part.entry.rows.now)) v [] }
{
    list_piece(part.list_ends, part.rows, v)
}
