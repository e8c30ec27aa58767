ghost use Rattle.std.specs.Prelude.{◌≡◌, IfOk};
ghost use Rattle.dr_rollup.specs.Hashes.{key_hash};

use crate::text_lists::copies_of;
use dr_base::{Key, Text, Texts};
use std::alloc::{AllocError, Global};
use std::hash::{BuildHasher, BuildHasherDefault, FoldHasher};

/// The key of a row or of a group, borrowed: a time in milliseconds since the epoch, and dimension values. By it a row is found
/// without a copy of the key.
#[derive(Clone, Copy, PartialEq, Eq, Hash)]
pub struct KeyOf<'a> {
    pub time: i64,
    pub dims: &'a [Text],
}

impl KeyOf<'_> {
    /// The key in memory of its own, but for texts of more than 14 bytes, which are shared. The only error is that memory ran out. It
    /// takes time and memory by the dimension values.
    pub fn copy(&self, alloc: Global) -> Result<Key, AllocError>
        ensures { IfOk result (λ key. key ≡ record { time = self.now.time; dims = self.now.dims.now }) }
    {
        Ok(Key {
            time: self.time,
            dims: Texts::from_vec(copies_of(alloc, self.dims)?),
        })
    }

    /// The hash of the key, of which equal keys have the same.
    #[inline]
    pub(crate) fn hashed(&self) -> u32
        ensures { result ≡ key_hash (record { time = self.now.time; dims = self.now.dims.now }) }
    {
        let hashers: BuildHasherDefault<FoldHasher> = BuildHasherDefault::new();
        (hashers.hash_one(*self) >> 32) as u32
    }
}
