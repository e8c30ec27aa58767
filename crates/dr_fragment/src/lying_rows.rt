ghost use Rattle.std.specs.Prelude.{◌≡◌, ◌<◌, ◌↔◌, Some, length, slice_get, IfSome, IsTrue};
ghost use Rattle.dr_image.specs.Table.{rows_of};

use crate::row_ref::RowRef;
use dr_base::Row;
use dr_image::SegmentView;
use dr_rollup::Arrived;
use std::marker::Model;

/// Rows ready to be read where they lie: lent by a fragment, in an index as their keys came, or a list of where each lies, which
/// was sorted. A contract sees the list of the rows.
#[derive(Drop)]
pub struct LyingRows<'a>(Place<'a>);

// Where rows lie.
#[derive(Drop)]
pub(crate) enum Place<'a> {
    Lent(&'a [Row]),
    InImage(SegmentView<'a>),
    Arrived(Arrived<'a>),
    Sorted(Vec<RowRef<'a>>),
}

impl<'a> Model for LyingRows<'a> {
    ghost use Rattle.std.specs.Prelude.{List};
    ghost use Rattle.dr_base.specs.declared.row.Row.{Row};
    ghost use Rattle.dr_fragment.specs.LyingRows.{rows_lying};

    ghost Value = { List Row };

    ghost view = { λ r. rows_lying r.0 };
}

impl<'a> LyingRows<'a> {
    /// Rows that are lent.
    pub(crate) fn lent(rows: &'a [Row]) -> LyingRows<'a>
        ensures { result ≡ rows.now }
    {
        LyingRows(Place::Lent(rows))
    }

    /// The rows of an image.
    pub(crate) fn in_image(view: SegmentView<'a>) -> LyingRows<'a>
        ensures { result ≡ rows_of view.entry }
    {
        LyingRows(Place::InImage(view))
    }

    /// The rows of an index as their keys came.
    pub(crate) fn arrived(rows: Arrived<'a>) -> LyingRows<'a>
        ensures { result ≡ rows.entry }
    {
        LyingRows(Place::Arrived(rows))
    }

    /// Rows that were sorted.
    pub(crate) fn sorted(rows: Vec<RowRef<'a>>) -> LyingRows<'a>
        ensures { result ≡ rows.entry.items }
    {
        LyingRows(Place::Sorted(rows))
    }

    /// How many rows there are.
    pub fn len(&self) -> usize
        ensures { result ≡ length self.now }
    {
        match &self.0 {
            Place::Lent(rows) => rows.len(),
            Place::InImage(view) => view.row_count(),
            Place::Arrived(rows) => rows.len(),
            Place::Sorted(rows) => rows.len(),
        }
    }

    /// The columns of the image; none where the rows were made. It takes constant time and no memory.
    pub fn view(&self) -> Option<&SegmentView<'a>>
        ensures { IfSome result (λ view. rows_of view.now ≡ self.now) }
    {
        match &self.0 {
            Place::InImage(view) => Some(view),
            Place::Lent(_) => None,
            Place::Arrived(_) => None,
            Place::Sorted(_) => None,
        }
    }

    /// The row at a place, from 0.
    pub fn row(&self, i: usize) -> RowRef<'_>
        requires { i < length self.now }
        ensures { slice_get self.now i ≡ Some result }
    {
        match &self.0 {
            Place::Lent(rows) => return row_at(rows, i),
            Place::InImage(view) => return RowRef::in_image(view, i),
            Place::Arrived(rows) => return arrived_at(rows, i),
            Place::Sorted(rows) => return rows[i].again(),
        }
    }
}

fn row_at(rows: &[Row], i: usize) -> RowRef<'_>
    requires { i < length rows.now }
    ensures { slice_get rows.now i ≡ Some result }
{
    RowRef::of_row(&rows[i])
}

fn arrived_at<'a>(rows: &Arrived<'a>, i: usize) -> RowRef<'a>
    requires { i < length rows.now }
    ensures { slice_get rows.now i ≡ Some result }
{
    let (time, dims, metrics) = rows.row(i);
    RowRef::of_parts(time, dims, metrics)
}

// Whether the rows of both are the same, up to the first that differs.
pub(crate) fn are_equal(rows: &LyingRows, others: &LyingRows) -> bool
    ensures { IsTrue result ↔ (rows.now ≡ others.now) }
{
    let count = rows.len();
    if others.len() != count {
        return false;
    }
    for i in 0..count {
        if !rows.row(i).equals(&others.row(i)) {
            return false;
        }
    }
    true
}
