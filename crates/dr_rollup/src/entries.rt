ghost use Rattle.std.specs.Prelude.{◌≡◌, ◌<◌, ◌++◌, ◌∷◌, [], List, true, None, Some, is_some, length, map, slice_get, IfSome, IfOk, OnOk, OnErr};
ghost use Rattle.dr_base.specs.declared.key.Key.{Key};
ghost use Rattle.dr_rollup.specs.Unrolled.{contributions};
ghost use Rattle.dr_rollup.specs.HeldRows.{HeldRows, held_with};
ghost use Rattle.dr_rollup.specs.Hashes.{key_hash};
ghost use Rattle.dr_rollup.specs.Placed.{IsNew, AreFound};
ghost use Rattle.dr_rollup.specs.Entries.{HasKeyAt, NoneHas, Combines};

use crate::flat_rows::FlatRows;
use crate::key_of::KeyOf;
use crate::placed::Placed;
use dr_base::{Row, Text};
use dr_schema::Metric;
use std::alloc::{AllocError, Global};
use std::marker::Model;

/// Rows in the order in which they came. Where those of one key are combined, the row of a key is found by hashing it. A contract
/// sees whether they are, how many dimension values and metrics a row has, and the rows.
#[derive(Drop)]
pub struct Entries {
    rows: FlatRows,
    places: Option<Placed>,
}

impl Model for Entries {
    ghost use Rattle.std.specs.Prelude.{is_some, IfSome};
    ghost use Rattle.dr_rollup.specs.HeldRows.{HeldRows};
    ghost use Rattle.dr_rollup.specs.WideRows.{keys_in};
    ghost use Rattle.dr_rollup.specs.Placed.{AreFound};

    ghost Value = { HeldRows };

    ghost view = { λ e. record { combines = is_some e.places; dimensions = e.rows.dimensions; width = e.rows.width; rows = e.rows.rows } };

    ghost invariant = { λ e. IfSome e.places (AreFound (keys_in e.rows)) };
}

impl Entries {
    /// No row, of so many dimension values and metrics each.
    pub fn new(alloc: Global, combines: bool, dimensions: usize, width: usize) -> Entries
        ensures { result ≡ record { combines = combines; dimensions = dimensions; width = width; rows = [] } }
    {
        Entries {
            rows: FlatRows::new(alloc, dimensions, width),
            places: no_places(alloc, combines),
        }
    }

    pub fn allocator(&self) -> Global {
        self.rows.allocator()
    }

    #[inline]
    pub fn len(&self) -> usize
        ensures { result ≡ length self.now.rows }
    {
        self.rows.len()
    }

    /// The time, the dimension values and the metrics of the row at a place.
    #[inline]
    pub fn row(&self, place: usize) -> (i64, &[Text], &[i64])
        requires { place < length self.now.rows }
        ensures { slice_get self.now.rows place ≡ Some (record { key = record { time = result.0; dims = result.1.now }; metrics = result.2.now }) }
    {
        self.rows.row(place)
    }

    /// The hash by which the row of a key is found; 0 where rows stay apart, which are never looked for.
    pub fn hash(&self, key: &KeyOf<'_>) -> u32
        ensures { self.now.combines ≡ true → result ≡ key_hash (record { time = key.now.time; dims = key.now.dims.now }) }
    {
        match &self.places {
            Some(_) => key.hashed(),
            None => 0,
        }
    }

    /// The place of the row of a key with this hash, where rows of one key are combined.
    pub fn find(&self, hash: u32, key: &KeyOf<'_>) -> Option<usize>
        requires { self.now.combines ≡ true → hash ≡ key_hash (record { time = key.now.time; dims = key.now.dims.now }) }
        ensures combined { IfSome result (λ i. self.now.combines ≡ true) }
        ensures found { IfSome result (HasKeyAt (record { time = key.now.time; dims = key.now.dims.now }) self.now.rows) }
        ensures none { result ≡ None → self.now.combines ≡ true → NoneHas (record { time = key.now.time; dims = key.now.dims.now }) self.now.rows }
    {
        match &self.places {
            Some(places) => places.find(self.allocator(), &self.rows, hash, key),
            None => None,
        }
    }

    /// Combines what an event adds to each column into the row at a place.
    pub fn combine(&mut self, place: usize, metrics: &[Metric], inputs: &[i64])
        requires width { self.old.width ≡ length metrics.now }
        requires place { place < length self.old.rows }
        requires inputs { length inputs.now ≡ length metrics.now }
        ensures same { self.new ≡ held_with self.old self.new.rows }
        ensures rows { Combines (map (λ m. m.kind) metrics.now) inputs.now self.old.rows place self.new.rows }
    {
        self.rows.combine(place, metrics, inputs);
    }

    /// Adds the row of a key with this hash, with what an event adds to each column. An error leaves the rows as they were.
    pub fn put(
        &mut self,
        hash: u32,
        key: &KeyOf<'_>,
        metrics: &[Metric],
        inputs: &[i64],
    ) -> Result<(), AllocError>
        requires hash { self.old.combines ≡ true → hash ≡ key_hash (record { time = key.now.time; dims = key.now.dims.now }) }
        requires dimensions { self.old.dimensions ≡ length key.now.dims.now }
        requires width { self.old.width ≡ length metrics.now }
        requires new { self.old.combines ≡ true → NoneHas (record { time = key.now.time; dims = key.now.dims.now }) self.old.rows }
        ensures ok { OnOk result (self.new ≡ held_with self.old (self.old.rows ++ record { key = record { time = key.now.time; dims = key.now.dims.now }; metrics = contributions (map (λ m. m.kind) metrics.now) inputs.now } ∷ [])) }
        ensures err { OnErr result (self.new ≡ self.old) }
    {
        place(
            &mut self.places,
            self.rows.allocator(),
            hash,
            key,
            self.rows.len(),
        )?;
        self.rows.put(key, metrics, inputs)?;
        Ok(())
    }

    /// The same rows in memory of their own, list by list.
    pub fn copy(&self) -> Result<Entries, AllocError>
        ensures { IfOk result (λ entries. entries ≡ self.now) }
    {
        Ok(Entries {
            rows: self.rows.copy()?,
            places: copy_of(&self.places, self.rows.allocator())?,
        })
    }

    /// Copies of the rows, each in memory of its own.
    pub fn copy_rows(&self) -> Result<Vec<Row>, AllocError>
        ensures { IfOk result (λ rows. rows.items ≡ self.now.rows) }
    {
        self.rows.copy_rows()
    }
}

// The places of no row, where rows of one key are combined.
fn no_places(alloc: Global, combines: bool) -> Option<Placed>
    ensures combines { is_some result ≡ combines }
    ensures places { IfSome result (AreFound []) }
{
    if combines {
        Some(Placed::new(alloc))
    } else {
        None
    }
}

// Adds the place of the row of a key.
fn place(
    places: &mut Option<Placed>,
    alloc: Global,
    hash: u32,
    key: &KeyOf<'_>,
    place: usize,
) -> Result<(), AllocError>
    requires { is_some places.old ≡ true → hash ≡ key_hash (record { time = key.now.time; dims = key.now.dims.now }) }
    ensures combines { is_some places.new ≡ is_some places.old }
    ensures kept { (keys : List Key) → (is_some places.old ≡ true → IsNew keys (record { time = key.now.time; dims = key.now.dims.now })) → IfSome places.old (AreFound keys) → IfSome places.new (AreFound keys) }
    ensures put { OnOk result ((keys : List Key) → (is_some places.old ≡ true → IsNew keys (record { time = key.now.time; dims = key.now.dims.now })) → place ≡ length keys → IfSome places.old (AreFound keys) → IfSome places.new (AreFound (keys ++ record { time = key.now.time; dims = key.now.dims.now } ∷ []))) }
{
    match places {
        Some(places) => places.put(alloc, hash, key, place),
        None => Ok(()),
    }
}

// The same places in memory of their own.
fn copy_of(places: &Option<Placed>, alloc: Global) -> Result<Option<Placed>, AllocError>
    ensures combines { IfOk result (λ copy. is_some copy ≡ is_some places.now) }
    ensures places { IfOk result (λ copy. (keys : List Key) → IfSome places.now (AreFound keys) → IfSome copy (AreFound keys)) }
{
    match places {
        Some(places) => Ok(Some(places.copy(alloc)?)),
        None => Ok(None),
    }
}
