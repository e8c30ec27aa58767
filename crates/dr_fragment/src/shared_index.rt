ghost use Rattle.std.specs.Prelude.{◌≡◌, ◌<◌, ◌≤◌, length, IfOk, OnOk, OnErr, IsErrOf};
ghost use Rattle.dr_schema.specs.Fits.{FitsSchema};
ghost use Rattle.dr_rollup.specs.OpenRows.{rows_with, with_rows};

use dr_base::Event;
use dr_rollup::{OpenIndex, RollupError};
use std::alloc::{AllocError, Global};
use std::marker::Model;
use std::sync::Arc;

/// The index of an open range, which a timeline shares with its snapshots. A contract sees what it sees of the index.
#[derive(Drop)]
pub struct SharedIndex(Arc<OpenIndex>);

impl Model for SharedIndex {
    ghost use Rattle.std.specs.Arc.{arc_value};
    ghost use Rattle.dr_rollup.specs.OpenRows.{OpenRows};

    ghost Value = { OpenRows };

    ghost view = { λ s. arc_value s.0 };
}

impl SharedIndex {
    /// An index to share. The only error is that memory ran out.
    pub fn new(alloc: Global, index: OpenIndex) -> Result<SharedIndex, AllocError>
        ensures { IfOk result (λ shared. shared ≡ index) }
    {
        Ok(SharedIndex(Arc::new(alloc, index)?))
    }

    /// The index.
    pub fn index(&self) -> &OpenIndex
        ensures { result.now ≡ self.now }
    {
        &self.0
    }

    /// Another share of the same index, which copies no row. The only error is that there are 2^63 shares.
    pub fn share(&self) -> Result<SharedIndex, AllocError>
        ensures { IfOk result (λ shared. shared ≡ self.now) }
    {
        Ok(SharedIndex(Arc::try_clone(&self.0)?))
    }

    /// Adds an event to the index of this share alone. Where there are other shares, the index is copied first, and they
    /// keep what they have. An error leaves the rows as they were. Refusals: 41 `IndexFull` exactly where a new row would be
    /// one more than there may be, unless memory runs out first, which is 0 `NoMemory`. It takes what [`OpenIndex::add`] takes, and
    /// where there are other shares what [`OpenIndex::copy`] takes besides: time and memory by the rows.
    pub fn add(&mut self, alloc: Global, event: &Event) -> Result<(), RollupError>
        requires { FitsSchema self.old.schema event.now }
        ensures ok { OnOk result (self.new ≡ with_rows self.old (rows_with self.old event.now)) }
        ensures err { OnErr result (self.new ≡ self.old) }
        ensures room { OnOk result (length (rows_with self.old event.now) ≤ self.old.limit) }
        ensures full { IsErrOf result RollupError.IndexFull → self.old.limit < length (rows_with self.old event.now) }
    {
        if let Some(own) = Arc::get_mut(&mut self.0) {
            return own.add(event);
        }
        let mut own = self.0.copy()?;
        own.add(event)?;
        self.0 = Arc::new(alloc, own)?;
        Ok(())
    }
}
