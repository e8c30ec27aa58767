ghost use Rattle.std.specs.Prelude.{◌≡◌, ◌&&◌, ◌<◌, not, false, true, length, get_or, replicate, IfOk};
ghost use Rattle.dr_columns.specs.Rows.{Narrows, truth_in};

use crate::cells::number_at;
use dr_image::SegmentView;
use dr_time::Union;
use std::alloc::{AllocError, Global};

// Of each row of an image, that it holds.
pub(crate) fn all_true(alloc: Global, view: &SegmentView<'_>) -> Result<Vec<bool>, AllocError>
    ensures { IfOk result (λ told. told.items ≡ replicate (length view.now.times) true) }
{
    Ok(vec![in alloc; true; view.row_count()]?)
}

// Makes false what is true in another list.
pub(crate) fn drop_where(told: &mut [bool], others: &[bool])
    requires { length others.now ≡ length told.old }
    ensures { Narrows (λ i. not (get_or others.now i false)) told.old told.new }
{
    for i in 0..told.len() {
        told[i] = told[i] && !others[i];
    }
}

// Makes false what isn't true of the number of a row; of a number that has no truth the other is told.
pub(crate) fn keep_true(told: &mut [bool], numbers: &[[u8; 4]], truths: &[bool], otherwise: bool)
    ensures { Narrows (truth_in numbers.now truths.now otherwise) told.old told.new }
{
    for i in 0..told.len() {
        told[i] = told[i] && truth_at(numbers, truths, otherwise, i);
    }
}

fn truth_at(numbers: &[[u8; 4]], truths: &[bool], otherwise: bool, i: usize) -> bool
    ensures { result ≡ truth_in numbers.now truths.now otherwise i }
{
    match truths.get(number_at(numbers, i)) {
        Some(truth) => *truth,
        None => otherwise,
    }
}
