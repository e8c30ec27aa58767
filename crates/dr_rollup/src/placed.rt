ghost use Rattle.std.specs.Prelude.{◌≡◌, ℕ, None, Some, true, false, List, [], ◌∷◌, ◌++◌, length, IfSome, IfOk, OnOk};
ghost use Rattle.dr_rollup.specs.Hashes.{key_hash};
ghost use Rattle.std.specs.BTreeMap.{get};
ghost use Rattle.dr_base.specs.declared.key.Key.{Key};
ghost use Rattle.dr_base.specs.Order.{key_cmp};
ghost use Rattle.dr_rollup.specs.Placed.{StandsAt, IsNew, AreFound};

use crate::key_of::KeyOf;
use crate::keyed::Keyed;
use dr_base::Key;
use dr_slots::{Sought, Table};
use std::alloc::{AllocError, Global};
use std::collections::BTreeMap;

/// Where the rows of keys stand. A key is looked for in a bounded number of slots by its hash; where it found none of these empty, it
/// stands in an ordered map. So a search takes logarithmic time at most, whatever the hashes are.
#[derive(Drop)]
pub struct Placed {
    table: Table,
    far: BTreeMap<Key, usize>,
}

impl Placed {
    /// No row. It takes no memory.
    pub fn new(alloc: Global) -> Placed
        ensures { AreFound [] result }
    {
        Placed {
            table: Table::new(alloc),
            far: BTreeMap::new(alloc),
        }
    }

    /// The place of a key's row, where it has one.
    pub fn find<R: Keyed>(
        &self,
        alloc: Global,
        rows: &R,
        hash: u32,
        key: &KeyOf<'_>,
    ) -> Option<usize>
        requires found { AreFound (R.keys rows.now) self.now }
        requires hash { hash ≡ key_hash (record { time = key.now.time; dims = key.now.dims.now }) }
        ensures found { IfSome result (StandsAt (R.keys rows.now) (record { time = key.now.time; dims = key.now.dims.now })) }
        ensures none { result ≡ None → (place : ℕ) → StandsAt (R.keys rows.now) (record { time = key.now.time; dims = key.now.dims.now }) place → ⊥ }
    {
        match self.table.find(hash, &SoughtKey { rows, key: *key }) {
            Some(place) => Some(place),
            None => self.behind(alloc, rows, key),
        }
    }

    /// Adds the place of a key that has none.
    pub fn put(
        &mut self,
        alloc: Global,
        hash: u32,
        key: &KeyOf<'_>,
        place: usize,
    ) -> Result<(), AllocError>
        requires { hash ≡ key_hash (record { time = key.now.time; dims = key.now.dims.now }) }
        ensures kept { (keys : List Key) → IsNew keys (record { time = key.now.time; dims = key.now.dims.now }) → AreFound keys self.old → AreFound keys self.new }
        ensures put { OnOk result ((keys : List Key) → IsNew keys (record { time = key.now.time; dims = key.now.dims.now }) → place ≡ length keys → AreFound keys self.old → AreFound (keys ++ record { time = key.now.time; dims = key.now.dims.now } ∷ []) self.new) }
    {
        if self.table.put(hash, place)? {
            return Ok(());
        }
        self.far.insert(key.copy(alloc)?, place)?;
        Ok(())
    }

    /// The same places in memory of their own.
    pub fn copy(&self, alloc: Global) -> Result<Placed, AllocError>
        ensures { IfOk result (λ copy. (keys : List Key) → AreFound keys self.now → AreFound keys copy) }
    {
        Ok(Placed {
            table: self.table.copy(alloc)?,
            far: copy_of(alloc, &self.far)?,
        })
    }

    // The place of a key's row, by its order. Where there is no memory for a copy of the key, all rows are looked at.
    fn behind<R: Keyed>(&self, alloc: Global, rows: &R, key: &KeyOf<'_>) -> Option<usize>
        ensures found { IfSome result (StandsAt (R.keys rows.now) (record { time = key.now.time; dims = key.now.dims.now })) }
        ensures none { result ≡ None → (place : ℕ) → get key_cmp self.now.far (record { time = key.now.time; dims = key.now.dims.now }) ≡ Some place → StandsAt (R.keys rows.now) (record { time = key.now.time; dims = key.now.dims.now }) place → ⊥ }
    {
        if self.far.is_empty() {
            return None;
        }
        match key.copy(alloc) {
            Ok(copy) => match self.far.get(&copy) {
                Some(place) if stands_at(rows, *place, key) => Some(*place),
                _ => None,
            },
            Err(_) => first_of(rows, key),
        }
    }
}

// A key that is looked for among rows.
#[derive(Clone, Copy)]
struct SoughtKey<'a, R> {
    rows: &'a R,
    key: KeyOf<'a>,
}

impl<R: Keyed> Sought for SoughtKey<'_, R> {
    ghost stands = { λ s. StandsAt (R.keys s.rows.now) (record { time = s.key.time; dims = s.key.dims.now }) };

    #[inline]
    fn stands_at(&self, place: usize) -> bool {
        stands_at(self.rows, place, &self.key)
    }
}

// Whether a key stands at a place.
#[inline]
fn stands_at<R: Keyed>(rows: &R, place: usize, key: &KeyOf<'_>) -> bool
    ensures yes { result ≡ true → StandsAt (R.keys rows.now) (record { time = key.now.time; dims = key.now.dims.now }) place }
    ensures no { result ≡ false → StandsAt (R.keys rows.now) (record { time = key.now.time; dims = key.now.dims.now }) place → ⊥ }
{
    place < rows.count() && rows.has_key(place, key)
}

// The first place of a key.
fn first_of<R: Keyed>(rows: &R, key: &KeyOf<'_>) -> Option<usize>
    ensures found { IfSome result (StandsAt (R.keys rows.now) (record { time = key.now.time; dims = key.now.dims.now })) }
    ensures none { result ≡ None → (place : ℕ) → StandsAt (R.keys rows.now) (record { time = key.now.time; dims = key.now.dims.now }) place → ⊥ }
{
    for place in 0..rows.count() {
        if rows.has_key(place, key) {
            return Some(place);
        }
    }
    None
}

// The same places of keys in memory of their own.
fn copy_of(alloc: Global, far: &BTreeMap<Key, usize>) -> Result<BTreeMap<Key, usize>, AllocError>
    ensures { IfOk result (λ copy. (k : Key) → get key_cmp copy k ≡ get key_cmp far.now k) }
{
    let mut copy = BTreeMap::new(alloc);
    for (key, place) in far.iter() {
        if copy.get(key).is_none() {
            copy.insert(key.copy()?, *place)?;
        }
    }
    Ok(copy)
}
