ghost use Rattle.std.specs.Prelude.{◌≡◌, ◌<◌, ◌++◌, ◌∷◌, [], None, Some, length, map, slice_get, IfSome, OnOk, OnErr, option_map};
ghost use Rattle.dr_base.specs.declared.row.Row.{Row};
ghost use Rattle.std.specs.List.{IsDistinct};
ghost use Rattle.std.specs.Borrow.{Lends, sem};
ghost use Rattle.dr_base.specs.contracts.numbers.Numbers.{the_row as numbers_row};
ghost use Rattle.dr_rollup.specs.contracts.groups.Groups.{the_row};
ghost use Rattle.dr_rollup.specs.Entries.{same_keys, with_metrics, HasKeyAt, NoneHas};

use crate::key_of::KeyOf;
use crate::keyed::Keyed;
use crate::placed::Placed;
use dr_base::{Key, Numbers, Row};
use std::alloc::{AllocError, Global};
use std::marker::Model;

/// Rows of which no two have the same key, in the order in which they were added, each found by its key. A contract sees the list of
/// them.
#[derive(Drop)]
pub struct Groups {
    rows: Vec<Row>,
    places: Placed,
}

impl Model for Groups {
    ghost use Rattle.std.specs.Prelude.{List, map};
    ghost use Rattle.std.specs.List.{IsDistinct};
    ghost use Rattle.dr_rollup.specs.Entries.{same_keys};
    ghost use Rattle.dr_base.specs.declared.row.Row.{Row};
    ghost use Rattle.dr_rollup.specs.Placed.{AreFound};

    ghost Value = { List Row };

    ghost view = { λ g. g.rows.items };

    ghost invariant = { λ g. AreFound (map (λ r. r.key) g.rows.items) g.places × IsDistinct same_keys (map (λ r. r.key) g.rows.items) };
}

impl Groups {
    /// No row. It takes no memory yet.
    pub fn new(alloc: Global) -> Groups
        ensures { result ≡ [] }
    {
        Groups {
            rows: Vec::new(alloc),
            places: Placed::new(alloc),
        }
    }

    /// The memory that the rows are in.
    pub fn allocator(&self) -> Global {
        *self.rows.allocator()
    }

    /// How many rows there are.
    #[inline]
    pub fn len(&self) -> usize
        ensures len { result ≡ length self.now }
        ensures apart { IsDistinct same_keys (map (λ r. r.key) self.now) }
    {
        self.rows.len()
    }

    /// The row at a place, from 0; none past the end.
    #[inline]
    pub fn get(&self, place: usize) -> Option<&Row>
        ensures { option_map (λ r. r.now) result ≡ slice_get self.now place }
    {
        self.rows.get(place)
    }

    /// The place of the row of a key, from 0, where there is one. It takes time by the bytes of the key, mostly, and a logarithm of the
    /// rows more where hashes of many keys are alike. Where there is no memory to look for these, each row is looked at.
    #[inline]
    pub fn find(&self, key: &KeyOf<'_>) -> Option<usize>
        ensures found { IfSome result (HasKeyAt (record { time = key.now.time; dims = key.now.dims.now }) self.now) }
        ensures none { result ≡ None → NoneHas (record { time = key.now.time; dims = key.now.dims.now }) self.now }
        ensures apart { IsDistinct same_keys (map (λ r. r.key) self.now) }
    {
        self.places
            .find(self.allocator(), &self.rows, key.hashed(), key)
    }

    /// Adds a row of a key that none has. The only error is that memory ran out, and leaves the rows as they were. It takes the time of
    /// [`find`](Groups::find).
    pub fn put(&mut self, key: Key, metrics: Numbers) -> Result<(), AllocError>
        requires { NoneHas key self.old }
        ensures ok { OnOk result (self.new ≡ self.old ++ record { key = key; metrics = metrics } ∷ []) }
        ensures err { OnErr result (self.new ≡ self.old) }
    {
        self.rows.reserve(1)?;
        let of = KeyOf {
            time: key.time,
            dims: key.dims.as_slice(),
        };
        self.places
            .put(*self.rows.allocator(), of.hashed(), &of, self.rows.len())?;
        self.rows.push(Row { key, metrics }).unwrap();
        Ok(())
    }

    /// The metrics of the row at a place, to change them where they lie. It takes constant time and no memory.
    #[inline]
    pub fn metrics_mut(&mut self, place: usize) -> &mut Numbers
        requires { place < length self.old }
        ensures* writes_back { sem 𝓛 (Lends the_row numbers_row self.entry result (with_metrics self.old place)) }
        ensures value { (row : Row) → slice_get self.old place ≡ Some row → result.now ≡ row.metrics }
    {
        let row = &mut self.rows[place];
        &mut row.metrics
    }

    /// The rows, in the order in which they were added. It takes no memory, and none is copied.
    pub fn into_rows(self) -> Vec<Row>
        ensures { result.items ≡ self }
    {
        self.rows
    }
}

impl Keyed for Vec<Row> {
    ghost keys = { λ rows. map (λ r. r.key) rows.items };

    #[inline]
    fn count(&self) -> usize {
        self.len()
    }

    #[inline]
    fn has_key(&self, place: usize, key: &KeyOf<'_>) -> bool {
        let held = &self[place].key;
        key.time == held.time && key.dims == held.dims.as_slice()
    }
}
