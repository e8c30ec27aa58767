ghost use Rattle.std.specs.Prelude.{◌≡◌, length, IfOk};
ghost use Rattle.dr_rollup.specs.OpenRows.{in_order};

use crate::row_ref::RowRef;
use crate::shared_index::SharedIndex;
use crate::sorting::sorted;
use dr_rollup::{Arrived, OpenIndex};
use std::alloc::AllocError;
use std::marker::Model;

/// A range of a chunk whose rows stand in a share of an index, in the order in which their keys came: an open range as it was
/// when it was pinned, or a sealed one that wasn't merged yet. A contract sees what it sees of a fragment, so the rows in the
/// order of their keys.
#[derive(Drop)]
pub(crate) struct IndexedRange {
    pub(crate) chunk: i64,
    pub(crate) from: usize,
    pub(crate) to: usize,
    pub(crate) index: SharedIndex,
}

impl Model for IndexedRange {
    ghost use Rattle.dr_fragment.specs.Ranged.{Ranged};

    ghost Value = { Ranged };

    ghost view = { λ f. record { chunk = f.chunk; from = f.from; to = f.to; rows = f.index.rows } };
}

impl IndexedRange {
    /// The same range with another share of its index.
    pub(crate) fn share(&self) -> Result<IndexedRange, AllocError>
        ensures { IfOk result (λ shared. shared ≡ self.now) }
    {
        Ok(IndexedRange {
            chunk: self.chunk,
            from: self.from,
            to: self.to,
            index: self.index.share()?,
        })
    }

    /// The start of the chunk, in milliseconds since the epoch.
    pub(crate) fn chunk(&self) -> i64
        ensures { result ≡ self.now.chunk }
    {
        self.chunk
    }

    /// The range of the chunk's list of events: the number of the first one, and the number behind the last one.
    pub(crate) fn range(&self) -> (usize, usize)
        ensures from { result.0 ≡ self.now.from }
        ensures to { result.1 ≡ self.now.to }
    {
        (self.from, self.to)
    }

    /// How many rows there are.
    pub(crate) fn len(&self) -> usize
        ensures { result ≡ length self.now.rows }
    {
        self.index.index().len()
    }

    /// The index.
    pub(crate) fn index(&self) -> &OpenIndex
        ensures { result.now.rows ≡ self.now.rows }
    {
        self.index.index()
    }

    /// The rows in the order of their keys, each where it lies. The only error is that memory ran out. It takes the time that
    /// sorting them takes, and copies none.
    pub(crate) fn sorted_rows(&self) -> Result<Vec<RowRef<'_>>, AllocError>
        ensures { IfOk result (λ rows. rows.items ≡ self.now.rows) }
    {
        sorted(&self.index.index().arrived())
    }

    /// The rows as their keys came. It takes constant time and no memory.
    pub(crate) fn arrived(&self) -> Arrived<'_>
        ensures { in_order result ≡ self.now.rows }
    {
        self.index.index().arrived()
    }
}
