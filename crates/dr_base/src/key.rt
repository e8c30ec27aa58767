ghost use Rattle.std.specs.Prelude.{◌≡◌, IfOk};

use crate::texts::Texts;
use std::alloc::AllocError;
use std::cmp::Ordering;

/// What rows are combined by: a time in milliseconds since the epoch, truncated or not, and the dimension values in
/// the order of the spec. Keys are ordered by time, then by the dimensions in their order, each by its UTF-8 bytes.
#[derive(Debug, Drop, PartialEq, Eq, PartialOrd, Ord, Hash)]
pub struct Key {
    pub time: i64,
    pub dims: Texts,
}

impl Key {
    ghost use Rattle.dr_base.specs.Order.{key_cmp};

    /// How the key compares with another: by time, then by the dimensions, each by its UTF-8 bytes. It takes time by the
    /// bytes up to the first that differs.
    pub fn order(&self, other: &Key) -> Ordering
        ensures { result ≡ key_cmp self.now other.now }
    {
        self.cmp(other)
    }

    /// An equal key in memory of its own, but for texts of more than 14 bytes, which are shared. The only error is that
    /// memory ran out. It takes time and memory by the number of its dimensions.
    pub fn copy(&self) -> Result<Key, AllocError>
        ensures { IfOk result (λ key. key ≡ self.now) }
    {
        Ok(Key {
            time: self.time,
            dims: self.dims.copy()?,
        })
    }
}
