ghost use Rattle.std.specs.Prelude.{◌≡◌, ◌<◌, ℕ, true, false, length, IfOk};
ghost use Rattle.dr_time.specs.Union.{union_holds};
ghost use Rattle.dr_ask.specs.Asked.{asked};
ghost use Rattle.dr_answers.specs.Selection.{selects};
ghost use Rattle.dr_columns.specs.Rows.{key_at};
ghost use Rattle.dr_columns.specs.Told.{tells};

use crate::filtering::{keep_held, narrow};
use crate::telling::all_true;
use dr_ask::Query;
use dr_image::SegmentView;
use dr_time::Union;
use std::alloc::{AllocError, Global};

/// Which rows of an image are selected.
#[derive(Drop)]
pub enum Selection {
    /// Each of them.
    Every,
    /// Those of which true is told.
    Told(Vec<bool>),
}

impl Selection {
    /// Whether each row is known to be selected. It takes constant time.
    pub fn is_every(&self) -> bool
        ensures { result ≡ true → (i : ℕ) → tells self.now i ≡ true }
    {
        match self {
            Selection::Every => true,
            Selection::Told(_) => false,
        }
    }

    /// Whether a row is selected, by its number from 0. It takes constant time.
    pub fn holds(&self, i: usize) -> bool
        ensures { result ≡ tells self.now i }
    {
        match self {
            Selection::Every => true,
            Selection::Told(told) => match told.get(i) {
                Some(truth) => *truth,
                None => false,
            },
        }
    }
}

/// Which rows of an image a query selects. Where the query's intervals, one or several that touch, hold each time from the image's
/// least to its greatest, which takes time logarithmic in their number, and the query has no filter, it is each row, which takes
/// no memory. Else it takes a byte for each row and each level of the filter, and time by the tests of the filter, each by the
/// rows and the dictionary's values, but with many tests as [`select_rows`](dr_select::select_rows). The only error is that memory ran
/// out.
pub fn rows_selected(
    alloc: Global,
    query: &Query,
    view: &SegmentView<'_>,
) -> Result<Selection, AllocError>
    ensures { IfOk result (λ s. (i : ℕ) → i < length view.now.times → tells s i ≡ selects (asked query.now) (key_at view.now i)) }
{
    let whole = is_within(view, &query.intervals);
    let Some(filter) = &query.filter else {
        if whole {
            return Ok(Selection::Every);
        }
        let mut told = all_true(alloc, view)?;
        keep_held(view, &query.intervals, told.as_mut_slice());
        return Ok(Selection::Told(told));
    };
    let mut told = all_true(alloc, view)?;
    if !whole {
        keep_held(view, &query.intervals, told.as_mut_slice());
    }
    narrow(alloc, view, filter, told.as_mut_slice())?;
    Ok(Selection::Told(told))
}

/// Whether no interval holds the time of a row of an image, told by its least and its greatest time. It takes time logarithmic in the
/// number of the intervals.
pub fn is_apart(view: &SegmentView<'_>, union: &Union) -> bool
    ensures { result ≡ true → (i : ℕ) → i < length view.now.times → union_holds union.now (key_at view.now i).time ≡ false }
{
    match union.first_from(view.min_time()) {
        Some(time) => view.max_time() < time,
        None => true,
    }
}

// Whether the intervals hold each time from the least of the rows to the greatest.
fn is_within(view: &SegmentView<'_>, union: &Union) -> bool
    ensures { result ≡ true → (i : ℕ) → i < length view.now.times → union_holds union.now (key_at view.now i).time ≡ true }
{
    union.holds_all(view.min_time(), view.max_time())
}
