ghost use Rattle.std.specs.Prelude.{◌≡◌, ◌≤◌, ◌<◌, ◌↔◌, [], length, IfOk, OnOk, OnErr, IsErrOf};
ghost use Rattle.std.specs.List.Sorted.{IsPermutation};
ghost use Rattle.dr_schema.specs.Fits.{FitsSchema};
ghost use Rattle.dr_agg.specs.Rollup.{IsInOrder};
ghost use Rattle.dr_rollup.specs.OpenRows.{OpenRows, rows_with, with_rows, in_order, RollsUp};
ghost use Rattle.dr_rollup.specs.Unrolled.{unrolled};

use crate::arrived::Arrived;
use crate::entries::Entries;
use crate::key_of::KeyOf;
use crate::rollup_error::RollupError;
use crate::sorted_rows::sorted_rows;
use crate::unrolled::row_time;
use dr_base::{Event, Row};
use dr_schema::Schema;
use std::alloc::{AllocError, Global};
use std::marker::Model;

/// The rows of events that are rolled up while they come (Apache Druid documentation, ingestion: rollup). A contract sees the
/// schema, how many rows there may be, and the rows in the order of their keys.
///
/// An event finds the row of its key by hashing its time and its dimension values once: mostly by one look, however many rows there are,
/// and by 64 looks and a search in the order of keys at most, whatever the hashes are. Its values are combined into that row in place,
/// which takes no memory.
#[derive(Drop)]
pub struct OpenIndex {
    schema: Schema,
    limit: usize,
    entries: Entries,
}

impl Model for OpenIndex {
    ghost use Rattle.dr_rollup.specs.OpenRows.{OpenRows};
    ghost use Rattle.dr_rollup.specs.Sound.{Holds, rows_of};

    ghost Value = { OpenRows };

    ghost view = { λ o. record { schema = o.schema; limit = o.limit; rows = rows_of o.schema o.entries } };

    ghost invariant = { λ o. Holds o.schema o.limit o.entries };
}

impl OpenIndex {
    /// An index without rows, which may have as many as `limit`. Times are truncated to the query granularity of the schema,
    /// which is shared. It takes no memory; the only error is that the schema has 2^63 shares.
    pub fn new(alloc: Global, schema: &Schema, limit: usize) -> Result<OpenIndex, AllocError>
        requires { limit ≤ 1048576 }
        ensures { IfOk result (λ index. index ≡ record { schema = schema.now; limit = limit; rows = [] }) }
    {
        Ok(OpenIndex {
            schema: schema.copy()?,
            limit,
            entries: Entries::new(
                alloc,
                schema.rollup(),
                schema.dimensions().len(),
                schema.metrics().len(),
            ),
        })
    }

    /// How many rows there are.
    pub fn len(&self) -> usize
        ensures len { result ≡ length self.now.rows }
        ensures within { result ≤ self.now.limit }
    {
        self.entries.len()
    }

    /// Adds an event that fits the schema: combines it into the row of its key, or puts a new row. An error leaves the rows
    /// as they were. Refusals: 41 `IndexFull` exactly where a new row would be one more than there may be. It takes time by the
    /// bytes of the dimension values, mostly, and a logarithm of the rows more where the hashes of many keys are alike; where there
    /// is no memory for a copy of the key then, each row is looked at. A known key takes no memory that stays, a new one a row of it.
    pub fn add(&mut self, event: &Event) -> Result<(), RollupError>
        requires { FitsSchema self.old.schema event.now }
        ensures ok { OnOk result (self.new ≡ with_rows self.old (rows_with self.old event.now)) }
        ensures rolls_up { OnOk result (RollsUp self.old event.now self.new.rows) }
        ensures err { OnErr result (self.new ≡ self.old) }
        ensures full { IsErrOf result RollupError.IndexFull ↔ (self.old.limit < length (rows_with self.old event.now)) }
    {
        let metrics = self.schema.metrics().as_slice();
        let inputs = event.inputs.as_slice();
        let key = row_key(&self.schema, event);
        let hash = self.entries.hash(&key);
        if let Some(place) = self.entries.find(hash, &key) {
            self.entries.combine(place, metrics, inputs);
            return Ok(());
        }
        if self.entries.len() >= self.limit {
            return Err(RollupError::IndexFull);
        }
        self.entries.put(hash, &key, metrics, inputs)?;
        Ok(())
    }

    /// The rows in the order of their keys, in memory of their own. The only error is that memory ran out. It takes the time
    /// that sorting them takes.
    pub fn rows(&self) -> Result<Vec<Row>, AllocError>
        ensures rows { IfOk result (λ rows. rows.items ≡ self.now.rows) }
        ensures ordered { IfOk result (λ rows. IsInOrder rows.items) }
    {
        sorted_rows(&self.entries)
    }

    /// The rows in the order in which their keys came, lent: those of the index, in another order, which they have once they are
    /// sorted by their keys, and rows of one key left as they stand. It takes constant time and no memory.
    pub fn arrived(&self) -> Arrived<'_>
        ensures permuted { IsPermutation result self.now.rows }
        ensures sorted { in_order result ≡ self.now.rows }
    {
        Arrived::of(&self.entries)
    }

    /// An equal index in memory of its own, but for the schema and texts of more than 14 bytes, which are shared. The only
    /// error is that memory ran out. It takes time by the rows, and sorts none.
    pub fn copy(&self) -> Result<OpenIndex, AllocError>
        ensures { IfOk result (λ index. index ≡ self.now) }
    {
        Ok(OpenIndex {
            schema: self.schema.copy()?,
            limit: self.limit,
            entries: self.entries.copy()?,
        })
    }
}

// The key of the row of an event.
fn row_key<'a>(schema: &Schema, event: &'a Event) -> KeyOf<'a>
    requires { FitsSchema schema.now event.now }
    ensures { record { time = result.time; dims = result.dims.now } ≡ (unrolled schema.now event.now).key }
{
    KeyOf {
        time: row_time(schema, event.time),
        dims: event.dims.as_slice(),
    }
}
