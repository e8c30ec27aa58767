ghost use Rattle.std.specs.Prelude.{◌≡◌, ◌↔◌, IfOk, IsTrue};

use crate::key::Key;
use crate::numbers::Numbers;
use std::alloc::AllocError;

/// A row: a key, and the value of each metric column in the order of the spec.
#[derive(Debug, Drop, PartialEq, Eq)]
pub struct Row {
    pub key: Key,
    pub metrics: Numbers,
}

impl Row {
    /// Whether the other row has the same key and the same metrics. It takes time by their bytes at most.
    pub fn equals(&self, other: &Row) -> bool
        ensures { IsTrue result ↔ (self.now ≡ other.now) }
    {
        self == other
    }

    /// An equal row in memory of its own, but for texts of more than 14 bytes, which are shared. The only error is that
    /// memory ran out. It takes time by the number of its values, and memory for two lists of them.
    pub fn copy(&self) -> Result<Row, AllocError>
        ensures { IfOk result (λ row. row ≡ self.now) }
    {
        Ok(Row {
            key: self.key.copy()?,
            metrics: self.metrics.copy()?,
        })
    }
}
