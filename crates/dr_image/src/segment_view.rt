ghost use Rattle.std.specs.Prelude.{◌≡◌, ◌-◌, ◌<◌, ◌≤◌, ◌≤ℤ◌, All, [], pos, Ok, Some, length, map, slice_get, get_or, IfOk};
ghost use Rattle.dr_image.specs.Words.{word, long};
ghost use Rattle.dr_image.specs.Table.{row_at, value_at};
ghost use Rattle.dr_image.specs.Sealed.{Sealed};
ghost use Rattle.dr_image.specs.Opening.{open_of};
ghost use Rattle.dr_image.specs.Laws.{sealed_by, IsImage, IsImageOf};
ghost use Rattle.dr_image.specs.Checked.{column_at};

use crate::image_error::ImageError;
use crate::layout::Layout;
use crate::opening::{check_contents, is_undamaged};
use crate::reading::{
    greatest_time, least_time, list_of, metric_at, number_at, numbers_of, time_at, value_of,
    values_of,
};
use dr_base::{Key, Numbers, Row, Text, Texts};
use std::alloc::{AllocError, Global};
use std::marker::Model;

/// The image of a sealed range, read from its bytes, which it borrows. A contract sees its columns: the times, the metrics,
/// and for each dimension a dictionary, the number of each row's value, and the row list of each value.
///
/// Each reader takes constant time and no memory, but for `row`.
#[derive(Drop)]
pub struct SegmentView<'a> {
    layout: Layout<'a>,
}

impl<'a> Model for SegmentView<'a> {
    ghost use Rattle.dr_image.specs.Table.{Table};
    ghost use Rattle.dr_image.specs.Layout.{read_table};
    ghost use Rattle.dr_image.specs.Checked.{Opens};

    ghost Value = { Table };

    ghost view = { λ v. read_table v.layout.bytes.now };

    ghost invariant = { λ v. Opens v.layout.bytes.now };
}

impl<'a> SegmentView<'a> {
    /// Opens bytes as an image: exactly those of an image are opened, and every other bytes are refused by the first check
    /// that fails, 50 to 58. It takes no memory, and never reads past the bytes. It reads each byte a few times: the digest
    /// (SHA-256, FIPS 180-4) takes most of the time.
    #[tactic(auto, unfolding(crate::specs::Opening::open_of))]
    pub fn open(bytes: &'a [u8]) -> Result<SegmentView<'a>, ImageError>
        ensures { result ≡ open_of bytes.now }
    {
        let layout = Layout::of(bytes)?;
        if !is_undamaged(bytes) {
            return Err(ImageError::DigestMismatch);
        }
        check_contents(&layout)?;
        Ok(SegmentView { layout })
    }

    /// A view of bytes that are known to be an image of at most 1073741824 bytes, as those that were just written: what `open`
    /// gives. It reads the numbers in front and the two at the front of each dimension, and no other byte: it takes time by the
    /// dimensions, and no memory.
    pub fn of_image(bytes: &'a [u8]) -> SegmentView<'a>
        requires { IsImage bytes.now }
        ensures value { open_of bytes.now ≡ Ok result }
        ensures rows { (s : Sealed) → IsImageOf bytes.now s → sealed_by result ≡ s }
    {
        let layout = Layout::of(bytes).unwrap();
        SegmentView { layout }
    }

    /// How many rows there are, at least one.
    #[tactic(auto, using(crate::proofs::LayoutLemmas::times_seen))]
    pub fn row_count(&self) -> usize
        ensures value { result ≡ length self.now.times }
        ensures some { 1 ≤ result }
    {
        self.layout.rows()
    }

    /// How many dimensions there are, 1 to 64.
    #[tactic(auto, using(crate::proofs::ReadingLemmas::dims_seen))]
    pub fn dimension_count(&self) -> usize
        ensures { result ≡ length self.now.dims }
    {
        self.layout.dims()
    }

    /// How many metrics there are, 0 to 64.
    pub fn metric_count(&self) -> usize
        ensures { result ≡ length self.now.metrics }
    {
        self.layout.metrics()
    }

    /// Whether events of equal truncated time and equal dimensions became one row.
    pub fn rollup(&self) -> bool
        ensures { result ≡ self.now.rollup }
    {
        self.layout.header().rollup
    }

    /// The start of the chunk, in milliseconds since the epoch.
    pub fn chunk(&self) -> i64
        ensures { result ≡ self.now.chunk }
    {
        self.layout.header().chunk
    }

    /// The range of the chunk's events: the number of the first one, and the number behind the last one.
    pub fn range(&self) -> (u64, u64)
        ensures from { result.0 ≡ self.now.from }
        ensures to { result.1 ≡ self.now.to }
    {
        let header = self.layout.header();
        (header.from, header.to)
    }

    /// The time of a row, in milliseconds since the epoch.
    pub fn time(&self, i: usize) -> i64
        requires { i < length self.now.times }
        ensures { slice_get self.now.times i ≡ Some result }
    {
        time_at(&self.layout, i)
    }

    /// The value of a row in a dimension.
    pub fn dim(&self, d: usize, i: usize) -> &'a str
        requires dimension { d < length self.now.dims }
        requires row { i < length self.now.times }
        ensures { result.now ≡ value_at (column_at self.now d) i }
    {
        let number = number_at(&self.layout, d, i);
        value_of(&self.layout, d, number)
    }

    /// The value of a row in a metric.
    pub fn metric(&self, m: usize, i: usize) -> i64
        requires metric { m < length self.now.metrics }
        requires row { i < length self.now.times }
        ensures { slice_get (get_or self.now.metrics m []) i ≡ Some result }
    {
        metric_at(&self.layout, m, i)
    }

    /// How many values a dimension has.
    pub fn value_count(&self, d: usize) -> usize
        requires { d < length self.now.dims }
        ensures { result ≡ length (column_at self.now d).dictionary }
    {
        values_of(&self.layout, d)
    }

    /// A value of a dimension, by its number: the values ascend by their UTF-8 bytes.
    pub fn value(&self, d: usize, v: usize) -> &'a str
        requires dimension { d < length self.now.dims }
        requires value { v < length (column_at self.now d).dictionary }
        ensures { slice_get (column_at self.now d).dictionary v ≡ Some result.now }
    {
        value_of(&self.layout, d, v)
    }

    /// The number of a row's value in a dimension.
    pub fn number(&self, d: usize, i: usize) -> usize
        requires dimension { d < length self.now.dims }
        requires row { i < length self.now.times }
        ensures { slice_get (column_at self.now d).numbers i ≡ Some result }
    {
        number_at(&self.layout, d, i)
    }

    /// The numbers of the rows' values in a dimension as they lie in the image, in the order of the rows: four bytes each, the
    /// lowest first.
    pub fn numbers(&self, d: usize) -> &'a [[u8; 4]]
        requires { d < length self.now.dims }
        ensures { map word result.now ≡ (column_at self.now d).numbers }
    {
        numbers_of(&self.layout, d)
    }

    /// The numbers of the rows that have a value of a dimension, rising, as they lie in the image: four bytes each, the lowest
    /// first.
    pub fn postings(&self, d: usize, v: usize) -> &'a [[u8; 4]]
        requires dimension { d < length self.now.dims }
        requires value { v < length (column_at self.now d).dictionary }
        ensures { slice_get (column_at self.now d).lists v ≡ Some (map word result.now) }
    {
        list_of(&self.layout, d, v)
    }

    /// The times of the rows as they lie in the image: eight bytes each, the lowest first, with a sign.
    pub fn times(&self) -> &'a [[u8; 8]]
        ensures { map long result.now ≡ self.now.times }
    {
        self.layout.times()
    }

    /// The values of a metric as they lie in the image: eight bytes each, the lowest first, with a sign.
    pub fn metric_bytes(&self, m: usize) -> &'a [[u8; 8]]
        requires { m < length self.now.metrics }
        ensures { slice_get self.now.metrics m ≡ Some (map long result.now) }
    {
        self.layout.metric(m)
    }

    /// The bytes, which are the image of what the other readers give.
    pub fn as_bytes(&self) -> &'a [u8]
        ensures opens { open_of result.now ≡ Ok self.now }
        ensures image { IsImageOf result.now (sealed_by self.now) }
    {
        self.layout.bytes()
    }

    /// The least time, that of the first row.
    pub fn min_time(&self) -> i64
        ensures value { slice_get self.now.times 0 ≡ Some result }
        ensures least { All (λ t. result ≤ℤ t) self.now.times }
    {
        let count = self.row_count();
        prove!(0 < count);
        least_time(&self.layout)
    }

    /// The greatest time, that of the last row.
    pub fn max_time(&self) -> i64
        ensures value { slice_get self.now.times (length self.now.times - 1) ≡ Some result }
        ensures greatest { All (λ t. t ≤ℤ result) self.now.times }
    {
        greatest_time(&self.layout)
    }

    /// A row, by its number from 0, in memory of its own. It takes time by the columns and by the bytes of the row's texts. The
    /// only error is that memory ran out.
    #[tactic(auto, unfolding(crate::specs::Table::row_at))]
    pub fn row(&self, alloc: Global, i: usize) -> Result<Row, AllocError>
        requires { i < length self.now.times }
        ensures { IfOk result (λ row. row ≡ row_at self.now i) }
    {
        Ok(Row {
            key: Key {
                time: self.time(i),
                dims: self.dims_of(alloc, i)?,
            },
            metrics: self.metrics_of(alloc, i)?,
        })
    }

    // The values of a row in the dimensions.
    fn dims_of(&self, alloc: Global, i: usize) -> Result<Texts, AllocError>
        requires { i < length self.now.times }
        ensures { IfOk result (λ dims. dims ≡ map (λ c. value_at c i) self.now.dims) }
    {
        let count = self.dimension_count();
        let mut dims = Texts::from_vec(Vec::with_capacity(alloc, count)?);
        for d in 0..count {
            dims.push(Text::from_str(alloc, self.dim(d, i))?)?;
        }
        Ok(dims)
    }

    // The values of a row in the metrics.
    fn metrics_of(&self, alloc: Global, i: usize) -> Result<Numbers, AllocError>
        requires { i < length self.now.times }
        ensures { IfOk result (λ metrics. metrics ≡ map (λ m. get_or m i (pos 0)) self.now.metrics) }
    {
        let count = self.metric_count();
        let mut metrics = Numbers::from_vec(Vec::with_capacity(alloc, count)?);
        for m in 0..count {
            metrics.push(self.metric(m, i))?;
        }
        Ok(metrics)
    }
}
