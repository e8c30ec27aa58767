ghost use Rattle.std.specs.Prelude.{◌≡◌, ◌<◌};
ghost use Rattle.std.specs.Ordering.{nat_cmp};
ghost use Rattle.std.specs.Cmp.Lexicographic.{slice_cmp};
ghost use Rattle.dr_image.specs.Sealed.{goes_on};
ghost use Rattle.dr_image.specs.Layout.{rows_in, parts_in, read_table};
ghost use Rattle.dr_image.specs.Opening.{rank_cmp, numbers_at, ranks_fit};

use crate::layout::Layout;
use crate::words::{number, signed};
use std::cmp::Ordering;

// Whether the rows are in order, each with the next.
pub(crate) fn do_ranks_fit(layout: &Layout) -> bool
    ensures { result ≡ ranks_fit (read_table layout.now.bytes.now).rollup (read_table layout.now.bytes.now).times (parts_in layout.now.bytes.now) }
{
    let rollup = layout.header().rollup;
    for i in 0..layout.rows() - 1 {
        if !may_go_on(rollup, rank(layout, i, i + 1)) {
            return false;
        }
    }
    true
}

// Whether a row may stand before another that compares so with it.
fn may_go_on(rollup: bool, order: Ordering) -> bool
    ensures { result ≡ goes_on rollup order }
{
    if rollup { order.is_lt() } else { order.is_le() }
}

// How two rows compare.
fn rank(layout: &Layout, i: usize, j: usize) -> Ordering
    requires one { i < rows_in layout.now.bytes.now }
    requires other { j < rows_in layout.now.bytes.now }
    ensures { result ≡ rank_cmp (read_table layout.now.bytes.now).times (parts_in layout.now.bytes.now) i j }
{
    let times = layout.times();
    match signed(&times[i]).cmp(&signed(&times[j])) {
        Ordering::Less => Ordering::Less,
        Ordering::Equal => rank_numbers(layout, i, j),
        Ordering::Greater => Ordering::Greater,
    }
}

// How the values of two rows compare, by their numbers.
fn rank_numbers(layout: &Layout, i: usize, j: usize) -> Ordering
    requires one { i < rows_in layout.now.bytes.now }
    requires other { j < rows_in layout.now.bytes.now }
    ensures { result ≡ slice_cmp nat_cmp (numbers_at (parts_in layout.now.bytes.now) i) (numbers_at (parts_in layout.now.bytes.now) j) }
{
    for d in 0..layout.dims() {
        let numbers = layout.part(d).numbers;
        match number(&numbers[i]).cmp(&number(&numbers[j])) {
            Ordering::Less => return Ordering::Less,
            Ordering::Equal => {}
            Ordering::Greater => return Ordering::Greater,
        }
    }
    Ordering::Equal
}
