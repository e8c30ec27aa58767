ghost use Rattle.std.specs.Prelude.{◌≡◌, ◌↔◌, ◌<◌, [], pos, length, get_or, IfOk, IfSome, IsTrue};
ghost use Rattle.std.specs.Ordering.{nat_cmp};
ghost use Rattle.std.specs.Cmp.Lexicographic.{slice_cmp};
ghost use Rattle.dr_base.specs.Order.{key_cmp};
ghost use Rattle.dr_image.specs.Table.{row_at};

use dr_base::{Numbers, Row, Text};
use dr_image::SegmentView;
use dr_rollup::KeyOf;
use std::alloc::{AllocError, Global};
use std::cmp::Ordering;
use std::marker::Model;

/// A row where it lies: a time, dimension values and metrics that were made, or a row in the columns of an image, of which nothing
/// is copied. A contract sees the row. Each reader takes constant time and no memory, but for those that give a copy.
#[derive(Drop)]
pub struct RowRef<'a>(Lying<'a>);

// Where a row lies.
#[derive(Drop)]
pub(crate) enum Lying<'a> {
    Made(i64, &'a [Text], &'a [i64]),
    InImage(&'a SegmentView<'a>, usize),
}

impl<'a> Model for RowRef<'a> {
    ghost use Rattle.dr_base.specs.declared.row.Row.{Row};
    ghost use Rattle.dr_fragment.specs.Lying.{row_lying, IsThere};

    ghost Value = { Row };

    ghost view = { λ r. row_lying r.0 };

    ghost invariant = { λ r. IsThere r.0 };
}

impl<'a> RowRef<'a> {
    /// A row that was made.
    pub fn of_row(row: &'a Row) -> RowRef<'a>
        ensures { result ≡ row.now }
    {
        RowRef::of_parts(
            row.key.time,
            row.key.dims.as_slice(),
            row.metrics.as_slice(),
        )
    }

    /// The row of a time in milliseconds since the epoch, dimension values and metrics.
    pub fn of_parts(time: i64, dims: &'a [Text], metrics: &'a [i64]) -> RowRef<'a>
        ensures { result ≡ record { key = record { time = time; dims = dims.now }; metrics = metrics.now } }
    {
        RowRef(Lying::Made(time, dims, metrics))
    }

    /// The same row where it lies.
    pub(crate) fn again(&self) -> RowRef<'a>
        ensures { result ≡ self.now }
    {
        match self.0 {
            Lying::Made(time, dims, metrics) => RowRef::of_parts(time, dims, metrics),
            Lying::InImage(view, i) => RowRef::in_image(view, i),
        }
    }

    /// The row of an image, by its number from 0.
    pub(crate) fn in_image(view: &'a SegmentView<'a>, i: usize) -> RowRef<'a>
        requires { i < length view.now.times }
        ensures { result ≡ row_at view.now i }
    {
        RowRef(Lying::InImage(view, i))
    }

    /// The time, the dimension values and the metrics, where they were made; none where the row lies in an image.
    pub fn parts(&self) -> Option<(i64, &[Text], &[i64])>
        ensures { IfSome result (λ parts. record { key = record { time = parts.0; dims = parts.1.now }; metrics = parts.2.now } ≡ self.now) }
    {
        match &self.0 {
            Lying::Made(time, dims, metrics) => Some((*time, dims, metrics)),
            Lying::InImage(_, _) => None,
        }
    }

    /// The time, in milliseconds since the epoch.
    pub fn time(&self) -> i64
        ensures { result ≡ self.now.key.time }
    {
        match &self.0 {
            Lying::Made(time, _, _) => *time,
            Lying::InImage(view, i) => view.time(*i),
        }
    }

    /// How many dimension values there are.
    pub fn dim_count(&self) -> usize
        ensures { result ≡ length self.now.key.dims }
    {
        match &self.0 {
            Lying::Made(_, dims, _) => dims.len(),
            Lying::InImage(view, _) => view.dimension_count(),
        }
    }

    /// The value of a dimension.
    pub fn dim(&self, d: usize) -> &str
        requires { d < length self.now.key.dims }
        ensures { result.now ≡ get_or self.now.key.dims d [] }
    {
        match &self.0 {
            Lying::Made(_, dims, _) => dim_at(dims, d),
            Lying::InImage(view, i) => view.dim(d, *i),
        }
    }

    /// How many metrics there are.
    pub fn metric_count(&self) -> usize
        ensures { result ≡ length self.now.metrics }
    {
        match &self.0 {
            Lying::Made(_, _, metrics) => metrics.len(),
            Lying::InImage(view, _) => view.metric_count(),
        }
    }

    /// The value of a metric.
    pub fn metric(&self, m: usize) -> i64
        requires { m < length self.now.metrics }
        ensures { result ≡ get_or self.now.metrics m (pos 0) }
    {
        match &self.0 {
            Lying::Made(_, _, metrics) => metric_at(metrics, m),
            Lying::InImage(view, i) => view.metric(m, *i),
        }
    }

    /// The metrics in memory of their own. The only error is that memory ran out. It takes time and memory by the metrics.
    pub fn metrics(&self, alloc: Global) -> Result<Numbers, AllocError>
        ensures { IfOk result (λ metrics. metrics ≡ self.now.metrics) }
    {
        let count = self.metric_count();
        let mut metrics = Numbers::from_vec(Vec::with_capacity(alloc, count)?);
        for m in 0..count {
            metrics.push(self.metric(m))?;
        }
        Ok(metrics)
    }

    /// An equal row in memory of its own. The only error is that memory ran out. It takes time and memory by the columns and
    /// the bytes of the dimension values.
    pub fn copy(&self, alloc: Global) -> Result<Row, AllocError>
        ensures { IfOk result (λ row. row ≡ self.now) }
    {
        match &self.0 {
            Lying::Made(time, dims, metrics) => copied(alloc, *time, dims, metrics),
            Lying::InImage(view, i) => view.row(alloc, *i),
        }
    }

    /// How the row compares with another: by time, then by the dimensions in their order, each by its UTF-8 bytes. It takes
    /// time by the bytes up to the first that differ.
    pub fn order(&self, other: &RowRef) -> Ordering
        ensures { result ≡ key_cmp self.now.key other.now.key }
    {
        match self.time().cmp(&other.time()) {
            Ordering::Equal => order_of_dims(self, other),
            Ordering::Less => Ordering::Less,
            Ordering::Greater => Ordering::Greater,
        }
    }

    /// Whether the other row has the same key and the same metrics. It takes no memory, and time by the columns and the bytes of the
    /// dimension values.
    pub fn equals(&self, other: &RowRef) -> bool
        ensures { IsTrue result ↔ (self.now ≡ other.now) }
    {
        match self.order(other) {
            Ordering::Equal => are_metrics_equal(self, other),
            Ordering::Less => false,
            Ordering::Greater => false,
        }
    }
}

fn dim_at(dims: &[Text], d: usize) -> &str
    requires { d < length dims.now }
    ensures { result.now ≡ get_or dims.now d [] }
{
    dims[d].as_str()
}

fn metric_at(metrics: &[i64], m: usize) -> i64
    requires { m < length metrics.now }
    ensures { result ≡ get_or metrics.now m (pos 0) }
{
    metrics[m]
}

fn copied(alloc: Global, time: i64, dims: &[Text], metrics: &[i64]) -> Result<Row, AllocError>
    ensures { IfOk result (λ row. row ≡ record { key = record { time = time; dims = dims.now }; metrics = metrics.now }) }
{
    Ok(Row {
        key: KeyOf { time, dims }.copy(alloc)?,
        metrics: Numbers::from_vec(Vec::from_slice(alloc, metrics)?),
    })
}

// The order of dimension values, in which those of two rows that were made are compared as they lie, since sorting does little else.
fn order_of_dims(a: &RowRef, b: &RowRef) -> Ordering
    ensures { result ≡ slice_cmp (slice_cmp nat_cmp) a.now.key.dims b.now.key.dims }
{
    match (&a.0, &b.0) {
        (Lying::Made(_, a_dims, _), Lying::Made(_, b_dims, _)) => a_dims.cmp(b_dims),
        _ => order_one_by_one(a, b),
    }
}

fn order_one_by_one(a: &RowRef, b: &RowRef) -> Ordering
    ensures { result ≡ slice_cmp (slice_cmp nat_cmp) a.now.key.dims b.now.key.dims }
{
    let a_count = a.dim_count();
    let b_count = b.dim_count();
    for d in 0..a_count.min(b_count) {
        let order = a.dim(d).cmp(b.dim(d));
        if order != Ordering::Equal {
            return order;
        }
    }
    a_count.cmp(&b_count)
}

fn are_metrics_equal(a: &RowRef, b: &RowRef) -> bool
    ensures { IsTrue result ↔ (a.now.metrics ≡ b.now.metrics) }
{
    let count = a.metric_count();
    if b.metric_count() != count {
        return false;
    }
    for m in 0..count {
        if a.metric(m) != b.metric(m) {
            return false;
        }
    }
    true
}
