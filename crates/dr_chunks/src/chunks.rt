ghost use Rattle.std.specs.Prelude.{◌≡◌, ◌+◌, ◌<◌, ◌≤◌, ◌++◌, [], IfOk, IfSome, IsSome, OnOk, OnErr, length, option_map};
ghost use Rattle.std.specs.List.{AllByRecursion, flat_map};
ghost use Rattle.dr_schema.specs.declared.schema.Schema.{Schema as SchemaOf};
ghost use Rattle.dr_schema.specs.Fits.{FitsSchema};
ghost use Rattle.dr_chunks.specs.Held.{grown, is_full, seals_of, at_start, chunk_at, chunk_in, with_open_sealed, with_range, with_one, infos_of_chunk, fragments_of_chunk};

use crate::chunk::Chunk;
use crate::sealed_range::SealedRange;
use dr_base::Event;
use dr_cuts::RangeInfo;
use dr_fragment::Fragments;
use dr_schema::Schema;
use std::alloc::{AllocError, Global};
use std::collections::BTreeMap;
use std::marker::Model;

/// Chunks by their starts, rising. A contract sees the list of the chunks. A chunk is found, and a new one put, in
/// logarithmic time, in whatever order they come.
#[derive(Drop)]
pub struct Chunks(BTreeMap<i64, Chunk>);

impl Model for Chunks {
    ghost use Rattle.std.specs.Prelude.{◌≡◌, List};
    ghost use Rattle.std.specs.List.{AllByRecursion};
    ghost use Rattle.std.specs.BTreeMap.{values};
    ghost use Rattle.dr_chunks.specs.declared.chunk.Chunk.{Chunk};

    ghost Value = { List Chunk };

    ghost view = { λ c. values c.0 };

    ghost invariant = { λ c. AllByRecursion (λ e. e.1.start ≡ e.0) c.0.entries };
}

impl Chunks {
    /// No chunk.
    pub fn new(alloc: Global) -> Chunks
        ensures { result ≡ [] }
    {
        Chunks(BTreeMap::new(alloc))
    }

    /// The chunk that starts at this time; none where there is none.
    pub fn get(&self, start: i64) -> Option<&Chunk>
        ensures { option_map (λ c. c.now) result ≡ chunk_in start self.now }
    {
        // `len` is called for its clause that the starts rise.
        let _len = self.0.len();
        self.0.get(&start)
    }

    /// Adds an event to the open range of its chunk, which may be new. Answers how many ranges were sealed by it, 0 or 1. An
    /// error leaves the chunks as they were.
    pub fn grow(
        &mut self,
        alloc: Global,
        schema: &Schema,
        serial: u64,
        start: i64,
        event: &Event,
    ) -> Result<u64, AllocError>
        requires chunks { AllByRecursion (λ c. (c.open_range.schema ≡ schema.now) × (c.events < 18446744073709551615)) self.old }
        requires event { FitsSchema schema.now event.now }
        ensures ok { OnOk result (self.new ≡ at_start schema.now (grown serial event.now) start self.old) }
        ensures seals { IfOk result (λ seals. seals ≡ seals_of (is_full (with_one event.now (chunk_at schema.now start self.old)))) }
        ensures err { OnErr result (self.new ≡ self.old) }
    {
        if let Some(chunk) = self.0.get_mut(&start) {
            return chunk.grow(alloc, serial, event);
        }
        let mut chunk = Chunk::new(alloc, schema, start)?;
        let seals = chunk.grow(alloc, serial, event)?;
        self.0.insert(start, chunk)?;
        Ok(seals)
    }

    /// Seals the open range of the chunk that starts at this time with this serial. An error leaves the chunks as they were.
    pub fn seal(&mut self, alloc: Global, start: i64, serial: u64) -> Result<(), AllocError>
        requires { IsSome (chunk_in start self.old) }
        ensures ok { (schema : SchemaOf) → OnOk result (self.new ≡ at_start schema (with_open_sealed serial) start self.old) }
        ensures err { OnErr result (self.new ≡ self.old) }
    {
        let chunk = self.0.get_mut(&start).unwrap();
        chunk.seal(alloc, serial)
    }

    /// Puts a sealed range in the place of so many, from a place on, in the chunk that starts at this time, of which there are
    /// so many publications then.
    pub fn replace(
        &mut self,
        start: i64,
        place: usize,
        count: usize,
        publications: u64,
        range: SealedRange,
    )
        requires chunk { IsSome (chunk_in start self.old) }
        requires some { 0 < count }
        requires within { IfSome (chunk_in start self.old) (λ c. place + count ≤ length c.sealed) }
        ensures { (schema : SchemaOf) → self.new ≡ at_start schema (with_range place count publications range) start self.old }
    {
        let chunk = self.0.get_mut(&start).unwrap();
        chunk.sealed.replace(place, count, range);
        chunk.publications = publications;
    }

    /// Puts the ranges of each chunk behind these, as a snapshot shows them, and shares of their fragments. No row is copied.
    /// The only error is that memory ran out.
    pub fn pin(
        &self,
        alloc: Global,
        pinned: &mut Fragments,
        ranges: &mut Vec<RangeInfo>,
    ) -> Result<(), AllocError>
        ensures pinned { OnOk result (pinned.new ≡ pinned.old ++ flat_map fragments_of_chunk self.now) }
        ensures ranges { OnOk result (ranges.new.items ≡ ranges.old.items ++ flat_map infos_of_chunk self.now) }
    {
        for (_, chunk) in self.0.iter() {
            chunk.pin(alloc, pinned, ranges)?;
        }
        Ok(())
    }
}
