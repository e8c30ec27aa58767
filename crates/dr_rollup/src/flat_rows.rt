ghost use Rattle.std.specs.Prelude.{◌≡◌, ◌<◌, ◌++◌, ◌∷◌, [], Some, length, map, slice_get, IfOk, OnOk, OnErr};
ghost use Rattle.dr_rollup.specs.Unrolled.{contributions};
ghost use Rattle.dr_rollup.specs.WideRows.{wide_with, keys_in};
ghost use Rattle.dr_rollup.specs.Entries.{Combines};

use crate::key_of::KeyOf;
use crate::keyed::Keyed;
use crate::pieces::{contribute_at, piece};
use crate::text_lists::{copies_of, push_copies};
use crate::unrolled::push_contributions;
use dr_base::{Numbers, Row, Text};
use dr_schema::Metric;
use std::alloc::{AllocError, Global};
use std::marker::Model;

/// Rows in the order in which they came, with as many dimension values and as many metrics each. The times of all rows lie in one
/// list, their dimension values in another and their metrics in a third, row after row, so that a row takes no memory of its own.
/// A contract sees how many dimension values and metrics a row has, and the rows.
#[derive(Drop)]
pub struct FlatRows {
    dimensions: usize,
    width: usize,
    times: Vec<i64>,
    dims: Vec<Text>,
    values: Vec<i64>,
}

impl Model for FlatRows {
    ghost use Rattle.std.specs.Prelude.{◌≡◌, ◌*◌, length};
    ghost use Rattle.dr_rollup.specs.WideRows.{WideRows, keys_from, rows_from};

    ghost Value = { WideRows };

    ghost view = { λ r. record { dimensions = r.dimensions; width = r.width; rows = rows_from r.width (keys_from r.dimensions r.times.items r.dims.items) r.values.items } };

    ghost invariant = { λ r. (length r.dims.items ≡ length r.times.items * r.dimensions) × (length r.values.items ≡ length r.times.items * r.width) };
}

impl FlatRows {
    /// No row, of so many dimension values and metrics each.
    pub fn new(alloc: Global, dimensions: usize, width: usize) -> FlatRows
        ensures { result ≡ record { dimensions = dimensions; width = width; rows = [] } }
    {
        FlatRows {
            dimensions,
            width,
            times: Vec::new(alloc),
            dims: Vec::new(alloc),
            values: Vec::new(alloc),
        }
    }

    pub fn allocator(&self) -> Global {
        *self.times.allocator()
    }

    /// How many rows there are.
    #[inline]
    pub fn len(&self) -> usize
        ensures { result ≡ length self.now.rows }
    {
        self.times.len()
    }

    /// The time, the dimension values and the metrics of the row at a place.
    #[inline]
    pub fn row(&self, place: usize) -> (i64, &[Text], &[i64])
        requires { place < length self.now.rows }
        ensures { slice_get self.now.rows place ≡ Some (record { key = record { time = result.0; dims = result.1.now }; metrics = result.2.now }) }
    {
        (
            self.times[place],
            piece(self.dims.as_slice(), self.dimensions, place),
            piece(self.values.as_slice(), self.width, place),
        )
    }

    /// Combines what an event adds to each column into the row at a place.
    pub fn combine(&mut self, place: usize, metrics: &[Metric], inputs: &[i64])
        requires place { place < length self.old.rows }
        requires width { self.old.width ≡ length metrics.now }
        requires inputs { length inputs.now ≡ length metrics.now }
        ensures same { self.new ≡ wide_with self.old self.new.rows }
        ensures rows { Combines (map (λ m. m.kind) metrics.now) inputs.now self.old.rows place self.new.rows }
    {
        contribute_at(
            self.values.as_mut_slice(),
            self.width,
            place,
            metrics,
            inputs,
        );
    }

    /// Adds the row of a key, with what an event adds to each column. An error leaves the rows as they were.
    pub fn put(
        &mut self,
        key: &KeyOf<'_>,
        metrics: &[Metric],
        inputs: &[i64],
    ) -> Result<(), AllocError>
        requires dimensions { self.old.dimensions ≡ length key.now.dims.now }
        requires width { self.old.width ≡ length metrics.now }
        ensures ok { OnOk result (self.new ≡ wide_with self.old (self.old.rows ++ record { key = record { time = key.now.time; dims = key.now.dims.now }; metrics = contributions (map (λ m. m.kind) metrics.now) inputs.now } ∷ [])) }
        ensures err { OnErr result (self.new ≡ self.old) }
    {
        self.times.reserve(1)?;
        self.values.reserve(self.width)?;
        push_copies(&mut self.dims, key.dims)?;
        self.times.push(key.time).unwrap();
        push_contributions(&mut self.values, metrics, inputs);
        Ok(())
    }

    /// The same rows in memory of their own, list by list.
    pub fn copy(&self) -> Result<FlatRows, AllocError>
        ensures { IfOk result (λ rows. rows ≡ self.now) }
    {
        let alloc = self.allocator();
        Ok(FlatRows {
            dimensions: self.dimensions,
            width: self.width,
            times: Vec::from_slice(alloc, self.times.as_slice())?,
            dims: copies_of(alloc, self.dims.as_slice())?,
            values: Vec::from_slice(alloc, self.values.as_slice())?,
        })
    }

    /// Copies of the rows, each in memory of its own.
    pub fn copy_rows(&self) -> Result<Vec<Row>, AllocError>
        ensures { IfOk result (λ rows. rows.items ≡ self.now.rows) }
    {
        let mut rows = Vec::with_capacity(self.allocator(), self.len())?;
        for place in 0..self.len() {
            rows.push(self.copy_row(place)?)?;
        }
        Ok(rows)
    }

    // A copy of the row at a place.
    fn copy_row(&self, place: usize) -> Result<Row, AllocError>
        requires { place < length self.now.rows }
        ensures { IfOk result (λ row. slice_get self.now.rows place ≡ Some row) }
    {
        let alloc = self.allocator();
        let (time, dims, metrics) = self.row(place);
        Ok(Row {
            key: KeyOf { time, dims }.copy(alloc)?,
            metrics: Numbers::from_vec(Vec::from_slice(alloc, metrics)?),
        })
    }
}

impl Keyed for FlatRows {
    ghost keys = { keys_in };

    #[inline]
    fn count(&self) -> usize {
        self.len()
    }

    #[inline]
    fn has_key(&self, place: usize, key: &KeyOf<'_>) -> bool {
        let (time, dims, _) = self.row(place);
        key.time == time && key.dims == dims
    }
}
