ghost use Rattle.std.specs.Prelude.{◌≡◌, ◌↔◌, ◌<◌, Ok, Some, length, slice_get, IfOk, IfSome, IsTrue};
ghost use Rattle.dr_agg.specs.Rollup.{IsInOrder};
ghost use Rattle.dr_image.specs.Sealed.{Sealed};
ghost use Rattle.dr_image.specs.Laws.{IsImage, IsImageOf};
ghost use Rattle.dr_fragment.specs.Ranged.{range_in, range_sealed, range_opened};
ghost use Rattle.dr_fragment.specs.Held.{StandsFor, IsImageAt, IsRangeOpened};

use crate::form::Form;
use crate::lying_rows::{LyingRows, are_equal};
use crate::rows::Rows;
use dr_base::Row;
use dr_image::{ImageError, SegmentView};
use std::alloc::{AllocError, Global};
use std::marker::Model;

/// A range of a chunk's list of events, rolled up: a list of rows, or the bytes of an image. A contract sees the start of the
/// chunk in milliseconds since the epoch, the range `[from, to)` of the list, and the rows in the order of their keys,
/// whatever holds them.
#[derive(Drop)]
pub struct Fragment {
    chunk: i64,
    from: usize,
    to: usize,
    held: Held,
}

// What holds the rows.
#[derive(Drop)]
pub(crate) enum Held {
    Rows(Rows),
    Image(Vec<u8>),
}

impl Model for Fragment {
    ghost use Rattle.dr_fragment.specs.Ranged.{Ranged};
    ghost use Rattle.dr_fragment.specs.Held.{rows_held, IsHeld};

    ghost Value = { Ranged };

    ghost view = { λ f. record { chunk = f.chunk; from = f.from; to = f.to; rows = rows_held f.held } };

    ghost invariant = { λ f. IsHeld f.chunk f.from f.to f.held };
}

impl Fragment {
    /// A fragment of rows that stand in the order of their keys. It takes no memory.
    pub fn of_rows(chunk: i64, from: usize, to: usize, rows: Vec<Row>) -> Fragment
        requires { IsInOrder rows.items }
        ensures { result ≡ record { chunk = chunk; from = from; to = to; rows = rows.items } }
    {
        Fragment {
            chunk,
            from,
            to,
            held: Held::Rows(Rows::from_vec(rows)),
        }
    }

    /// A fragment of the bytes of an image, which it keeps, and nothing else: it takes no memory. Refusals: 50 to 58, the
    /// first check that fails, as `SegmentView::open` says; every other bytes are the image of a range. It reads each byte a few times.
    pub fn of_image(bytes: Vec<u8>) -> Result<Fragment, ImageError>
        ensures { result ≡ range_opened bytes.items }
    {
        let (chunk, from, to) = opened_range(&bytes)?;
        Ok(Fragment {
            chunk,
            from,
            to,
            held: Held::Image(bytes),
        })
    }

    /// A fragment of bytes that are known to be an image, as those that were just written: what `of_image` gives, in
    /// constant time.
    pub fn of_known_image(bytes: Vec<u8>) -> Fragment
        requires { IsImage bytes.items }
        ensures value { range_opened bytes.items ≡ Ok result }
        ensures rows { (s : Sealed) → IsImageOf bytes.items s → result ≡ range_sealed s }
    {
        let (chunk, from, to) = range_of_image(&bytes);
        Fragment {
            chunk,
            from,
            to,
            held: Held::Image(bytes),
        }
    }

    /// The start of the chunk, in milliseconds since the epoch.
    pub fn chunk(&self) -> i64
        ensures { result ≡ self.now.chunk }
    {
        self.chunk
    }

    /// The range of the chunk's list of events: the number of the first one, and the number behind the last one.
    pub fn range(&self) -> (usize, usize)
        ensures from { result.0 ≡ self.now.from }
        ensures to { result.1 ≡ self.now.to }
    {
        (self.from, self.to)
    }

    /// How many rows there are. It takes constant time.
    pub fn len(&self) -> usize
        ensures { result ≡ length self.now.rows }
    {
        match &self.held {
            Held::Rows(rows) => rows.len(),
            Held::Image(bytes) => SegmentView::of_image(bytes).row_count(),
        }
    }

    /// What holds the rows. It takes constant time and no memory.
    pub fn form(&self) -> Form<'_>
        ensures { StandsFor result self.now }
    {
        match &self.held {
            Held::Rows(rows) => Form::Rows(rows.as_slice()),
            Held::Image(bytes) => Form::Image(SegmentView::of_image(bytes)),
        }
    }

    /// The columns of the image; none where the rows are a list. It takes constant time and no memory.
    pub fn view(&self) -> Option<SegmentView<'_>>
        ensures { IfSome result (λ view. range_in view ≡ self.now) }
    {
        match &self.held {
            Held::Image(bytes) => Some(SegmentView::of_image(bytes)),
            Held::Rows(_) => None,
        }
    }

    /// The rows in the order of their keys, lent. It takes constant time and no memory.
    pub fn ordered(&self) -> LyingRows<'_>
        ensures rows { result ≡ self.now.rows }
        ensures in_order { IsInOrder self.now.rows }
    {
        match &self.held {
            Held::Rows(rows) => LyingRows::lent(rows.as_slice()),
            Held::Image(bytes) => LyingRows::in_image(SegmentView::of_image(bytes)),
        }
    }

    /// A copy of the row at a place, from 0. The only error is that memory ran out. It takes time by the columns and by the
    /// bytes of the row's texts.
    pub fn row(&self, alloc: Global, i: usize) -> Result<Row, AllocError>
        requires { i < length self.now.rows }
        ensures { IfOk result (λ row. slice_get self.now.rows i ≡ Some row) }
    {
        let rows = self.ordered();
        rows.row(i).copy(alloc)
    }

    /// Whether the other fragment has the same chunk, range and rows, whatever holds them. Two images are compared by their
    /// bytes first; rows are compared up to the first that differs, and only where chunk, range and number of rows are the
    /// same. It takes no memory.
    pub fn equals(&self, other: &Fragment) -> bool
        ensures { IsTrue result ↔ (self.now ≡ other.now) }
    {
        if !self.has_range_of(other) {
            return false;
        }
        if self.has_bytes_of(other) {
            return true;
        }
        are_equal(&self.ordered(), &other.ordered())
    }

    // Whether chunk and range are the same.
    fn has_range_of(&self, other: &Fragment) -> bool
        ensures { IsTrue result ↔ ((self.now.chunk ≡ other.now.chunk) × (self.now.from ≡ other.now.from) × (self.now.to ≡ other.now.to)) }
    {
        self.chunk == other.chunk && self.from == other.from && self.to == other.to
    }

    // Whether both are images, of the same bytes.
    fn has_bytes_of(&self, other: &Fragment) -> bool
        ensures { IsTrue result → self.now.rows ≡ other.now.rows }
    {
        match (&self.held, &other.held) {
            (Held::Image(bytes), Held::Image(others)) => bytes == others,
            _ => false,
        }
    }
}

// The chunk and the range of bytes that open as an image.
fn opened_range(bytes: &[u8]) -> Result<(i64, usize, usize), ImageError>
    ensures { IsRangeOpened result bytes.now }
{
    let view = SegmentView::open(bytes)?;
    let (from, to) = view.range();
    Ok((view.chunk(), from as usize, to as usize))
}

// The chunk and the range of bytes that are an image.
fn range_of_image(bytes: &[u8]) -> (i64, usize, usize)
    requires { IsImage bytes.now }
    ensures { IsImageAt result.0 result.1 result.2 bytes.now }
{
    let view = SegmentView::of_image(bytes);
    let (from, to) = view.range();
    (view.chunk(), from as usize, to as usize)
}
