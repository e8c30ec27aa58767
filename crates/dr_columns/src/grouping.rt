ghost use Rattle.std.specs.Prelude.{◌≡◌, ◌<◌, ◌≤◌, ℕ, true, length, IfOk, OnOk};
ghost use Rattle.dr_predicate.specs.Match.{value_at};
ghost use Rattle.dr_answers.specs.Groups.{grouped_values};
ghost use Rattle.dr_columns.specs.Rows.{key_at, number_in, same_numbers};

use crate::cells::{known_place, number_at};
use crate::numbered::Numbered;
use dr_ask::Dimension;
use dr_base::Text;
use dr_image::SegmentView;
use std::alloc::{AllocError, Global};

/// The numbers of the rows' values in the dimensions that a query groups by, where the image has them. Rows that have the same
/// numbers have the same values. The only error is that memory ran out. It takes time and memory by the dimensions.
pub fn columns<'a>(
    alloc: Global,
    view: &SegmentView<'a>,
    dimensions: &[Dimension],
) -> Result<Vec<Numbered<'a>>, AllocError>
    ensures { IfOk result (λ columns. (i j : ℕ) → same_numbers columns.items i j ≡ true → grouped_values dimensions.now (key_at view.now i).dims ≡ grouped_values dimensions.now (key_at view.now j).dims) }
{
    let mut columns = Vec::with_capacity(alloc, dimensions.len())?;
    for dimension in dimensions {
        columns.push(column(view, dimension.place))?;
    }
    Ok(columns)
}

fn column<'a>(view: &SegmentView<'a>, place: Option<usize>) -> Numbered<'a>
    ensures { (i j : ℕ) → number_in result.numbers.now i ≡ number_in result.numbers.now j → value_at place (key_at view.now i).dims ≡ value_at place (key_at view.now j).dims }
{
    match known_place(view, place) {
        Some(d) => Numbered {
            numbers: view.numbers(d),
            values: view.value_count(d),
        },
        None => Numbered {
            numbers: &[],
            values: 1,
        },
    }
}

/// Whether two rows have the same numbers in each column. It takes time by the columns.
pub fn agree(columns: &[Numbered<'_>], i: usize, j: usize) -> bool
    ensures { result ≡ same_numbers columns.now i j }
{
    for column in columns {
        if number_at(column.numbers, i) != number_at(column.numbers, j) {
            return false;
        }
    }
    true
}

/// How many slots rows are spread over by their numbers: as many as there are lists of numbers, and at most 65521.
pub fn slot_count(columns: &[Numbered<'_>]) -> usize
    ensures { result ≤ 65521 }
{
    let mut count = 1usize;
    for column in columns {
        count = count.saturating_mul(column.values);
    }
    count.min(65521)
}

/// The slot of a row among so many. Rows of the same numbers have the same slot. It takes time by the columns.
pub fn slot(columns: &[Numbered<'_>], slots: usize, i: usize) -> usize
    ensures { 0 < slots → result < slots }
{
    let mut place = 0usize;
    for column in columns {
        place = place
            .wrapping_mul(column.values)
            .wrapping_add(number_at(column.numbers, i));
    }
    if place < slots {
        place
    } else {
        place.checked_rem(slots).unwrap_or(0)
    }
}

/// Writes the values by which a row of an image is grouped over other texts. The only error is that memory ran out. It takes time and
/// memory by the bytes of these values.
pub fn read_group(
    alloc: Global,
    view: &SegmentView<'_>,
    dimensions: &[Dimension],
    i: usize,
    group: &mut Vec<Text>,
) -> Result<(), AllocError>
    requires { i < length view.now.times }
    ensures { OnOk result (group.new.items ≡ grouped_values dimensions.now (key_at view.now i).dims) }
{
    group.clear();
    for dimension in dimensions {
        group.push(value_of(alloc, view, dimension.place, i)?)?;
    }
    Ok(())
}

// The value of a row in a dimension; in one that isn't there it is empty.
fn value_of(
    alloc: Global,
    view: &SegmentView<'_>,
    place: Option<usize>,
    i: usize,
) -> Result<Text, AllocError>
    requires { i < length view.now.times }
    ensures { IfOk result (λ text. text ≡ value_at place (key_at view.now i).dims) }
{
    match known_place(view, place) {
        Some(d) => Text::from_str(alloc, view.dim(d, i)),
        None => Text::from_str(alloc, ""),
    }
}
