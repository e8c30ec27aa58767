ghost use Rattle.std.specs.Prelude.{◌≡◌, ◌+◌, ◌<◌, ◌≤◌, nat_le, [], length, IfOk, IfSome, IsNone, OnOk, OnErr};
ghost use Rattle.dr_schema.specs.Fits.{FitsSchema};
ghost use Rattle.dr_rollup.specs.OpenRows.{rows_with, with_rows};
ghost use Rattle.dr_chunks.specs.Open.{index_of};

use dr_base::Event;
use dr_fragment::{Fragment, SharedFragment, SharedIndex};
use dr_rollup::{OpenIndex, RollupError};
use dr_schema::Schema;
use std::alloc::{AllocError, Global};
use std::marker::Model;

/// The open range of a chunk: its events are rolled up while they come, in an index that snapshots share. Without events it
/// holds a share of the schema alone. It has fewer rows than the schema's `maxRowsInMemory`, for with so many it is sealed. A
/// contract sees the schema, how many rows there may be, and the rows in the order of their keys.
#[derive(Drop)]
pub struct OpenRange {
    schema: Schema,
    // The rows, from the first event on.
    index: Option<SharedIndex>,
}

impl Model for OpenRange {
    ghost use Rattle.std.specs.Prelude.{IfSome};
    ghost use Rattle.dr_rollup.specs.OpenRows.{OpenRows};
    ghost use Rattle.dr_chunks.specs.Open.{index_of, rows_kept, IsOpenIndex};

    ghost Value = { OpenRows };

    ghost view = { λ o. index_of o.schema (rows_kept o.index) };

    ghost invariant = { λ o. IfSome o.index (IsOpenIndex o.schema) };
}

impl OpenRange {
    /// A range without events, which may have as many rows as the schema's `maxRowsInMemory`. It takes no memory; the only
    /// error is that the schema has 2^63 shares.
    pub fn new(schema: &Schema) -> Result<OpenRange, AllocError>
        ensures { IfOk result (λ range. range ≡ index_of schema.now []) }
    {
        Ok(OpenRange {
            schema: schema.copy()?,
            index: None,
        })
    }

    /// How many rows there are.
    pub fn len(&self) -> usize
        ensures { result ≡ length self.now.rows }
    {
        match &self.index {
            Some(shared) => shared.index().len(),
            None => 0,
        }
    }

    /// Whether one more row would be as many as there may be.
    pub fn is_nearly_full(&self) -> bool
        ensures { result ≡ nat_le self.now.limit (length self.now.rows + 1) }
    {
        self.schema.fields().limits.max_rows_in_memory <= self.len() + 1
    }

    /// Adds an event. Where there are then as many rows as there may be, it gives its index with them, and is without events. The
    /// only error is that memory ran out, which leaves the range as it was.
    pub fn add(&mut self, alloc: Global, event: &Event) -> Result<Option<SharedIndex>, AllocError>
        requires { FitsSchema self.old.schema event.now }
        ensures open { IfOk result (λ full. IsNone full → self.new ≡ with_rows self.old (rows_with self.old event.now)) }
        ensures few { IfOk result (λ full. IsNone full → length (rows_with self.old event.now) < self.old.limit) }
        ensures full { IfOk result (λ full. IfSome full (λ index. index.rows ≡ rows_with self.old event.now)) }
        ensures fresh { IfOk result (λ full. IfSome full (λ index. self.new ≡ with_rows self.old [])) }
        ensures many { IfOk result (λ full. IfSome full (λ index. self.old.limit ≤ length (rows_with self.old event.now))) }
        ensures err { OnErr result (self.new ≡ self.old) }
    {
        let limit = self.schema.fields().limits.max_rows_in_memory;
        if let Some(index) = &mut self.index {
            add_to(alloc, index, event)?;
            if index.index().len() < limit {
                return Ok(None);
            }
            return Ok(self.index.take());
        }
        let mut first = SharedIndex::new(alloc, OpenIndex::new(alloc, &self.schema, limit)?)?;
        add_to(alloc, &mut first, event)?;
        if first.index().len() < limit {
            self.index = Some(first);
            return Ok(None);
        }
        Ok(Some(first))
    }

    /// The range as it is now, as one of its chunk, with a share of its index, of which no row is copied. The only error is that
    /// memory ran out, which a range with events doesn't take.
    pub fn pin(
        &self,
        alloc: Global,
        chunk: i64,
        from: usize,
        to: usize,
    ) -> Result<SharedFragment, AllocError>
        ensures { IfOk result (λ fragment. fragment ≡ record { chunk = chunk; from = from; to = to; rows = self.now.rows }) }
    {
        match &self.index {
            Some(shared) => Ok(SharedFragment::of_index(chunk, from, to, shared.share()?)),
            None => {
                let empty = Fragment::of_rows(chunk, from, to, Vec::new(alloc));
                Ok(SharedFragment::new(alloc, empty)?)
            }
        }
    }

    /// Leaves the range without events.
    pub fn clear(&mut self)
        ensures { self.new ≡ with_rows self.old [] }
    {
        self.index = None;
    }
}

// Adds an event to an index that has room for one more row. An error leaves it as it was.
fn add_to(alloc: Global, index: &mut SharedIndex, event: &Event) -> Result<(), AllocError>
    requires fits { FitsSchema index.old.schema event.now }
    requires room { length index.old.rows < index.old.limit }
    ensures ok { OnOk result (index.new ≡ with_rows index.old (rows_with index.old event.now)) }
    ensures err { OnErr result (index.new ≡ index.old) }
{
    match index.add(alloc, event) {
        Ok(()) => Ok(()),
        Err(RollupError::NoMemory) => Err(AllocError),
        Err(RollupError::IndexFull) => unreachable!(),
    }
}
