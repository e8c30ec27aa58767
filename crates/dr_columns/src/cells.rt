ghost use Rattle.std.specs.Prelude.{◌≡◌, ◌<◌, pos, length, map, get_or};
ghost use Rattle.dr_image.specs.Words.{word, long};
ghost use Rattle.dr_columns.specs.Rows.{number_in, known_place};

use dr_image::SegmentView;

// The number of a row's value among these; 0 where there is none.
#[tactic(auto, unfolding(dr_image::specs::Words::word))]
pub(crate) fn number_at(numbers: &[[u8; 4]], i: usize) -> usize
    ensures { result ≡ number_in numbers.now i }
{
    match numbers.get(i) {
        Some(cell) => u32::from_le_bytes(*cell) as usize,
        None => 0,
    }
}

// The number at a place among these; 0 where there is none.
#[tactic(auto, unfolding(dr_image::specs::Words::long))]
pub(crate) fn value_at(values: &[[u8; 8]], i: usize) -> i64
    ensures { result ≡ get_or (map long values.now) i (pos 0) }
{
    match values.get(i) {
        Some(cell) => i64::from_le_bytes(*cell),
        None => 0,
    }
}

// The place of a dimension, where the image has it.
pub(crate) fn known_place(view: &SegmentView<'_>, place: Option<usize>) -> Option<usize>
    ensures { result ≡ known_place place (length view.now.dims) }
{
    match place {
        Some(d) if d < view.dimension_count() => Some(d),
        _ => None,
    }
}
