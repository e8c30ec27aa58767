ghost use Rattle.std.specs.Prelude.{◌≡◌, ◌<◌, List, Some, length, slice_get};
ghost use Rattle.dr_base.specs.declared.key.Key.{Key};
ghost use Rattle.dr_rollup.specs.Entries.{same_keys};

use crate::key_of::KeyOf;

/// Rows that stand one behind the other, and are asked for their keys.
pub trait Keyed {
    // The keys of the rows.
    ghost keys: { Self → List Key };

    /// How many rows there are.
    fn count(&self) -> usize
        ensures { result ≡ length (keys self.now) };

    /// Whether the row at a place has a key.
    fn has_key(&self, place: usize, key: &KeyOf<'_>) -> bool
        requires { place < length (keys self.now) }
        ensures { (k : Key) → slice_get (keys self.now) place ≡ Some k → result ≡ same_keys (record { time = key.now.time; dims = key.now.dims.now }) k };
}
