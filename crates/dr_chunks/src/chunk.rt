ghost use Rattle.std.specs.Prelude.{◌≡◌, ◌<◌, ◌++◌, IfOk, OnOk, OnErr};
ghost use Rattle.dr_schema.specs.Fits.{FitsSchema};
ghost use Rattle.dr_chunks.specs.Held.{no_chunk, with_one, grown, is_full, seals_of, with_open_sealed, has_open, open_info_of, open_fragment, infos_of_chunk, fragments_of_chunk};

use crate::open_range::OpenRange;
use crate::sealed_range::SealedRange;
use crate::sealed_ranges::SealedRanges;
use dr_base::Event;
use dr_cuts::RangeInfo;
use dr_fragment::{Fragments, SharedFragment};
use dr_schema::Schema;
use std::alloc::{AllocError, Global};

/// A chunk of events: the start of its bucket of the segment granularity, in milliseconds since the epoch, how many
/// events it has, its sealed ranges in order, how many publications there were, and its open range.
#[derive(Drop)]
pub struct Chunk {
    pub start: i64,
    pub events: usize,
    pub sealed: SealedRanges,
    pub publications: u64,
    pub open_range: OpenRange,
}

impl Chunk {
    /// A chunk without events. The only error is that memory ran out.
    pub fn new(alloc: Global, schema: &Schema, start: i64) -> Result<Chunk, AllocError>
        ensures { IfOk result (λ chunk. chunk ≡ no_chunk schema.now start) }
    {
        Ok(Chunk {
            start,
            events: 0,
            sealed: SealedRanges::new(alloc),
            publications: 0,
            open_range: OpenRange::new(schema)?,
        })
    }

    /// Whether the open range has an event.
    pub fn has_open(&self) -> bool
        ensures { result ≡ has_open self.now }
    {
        self.sealed.end() < self.events
    }

    /// The open range as a snapshot shows it.
    pub fn open_info(&self) -> RangeInfo
        ensures { result ≡ open_info_of self.now }
    {
        RangeInfo {
            chunk: self.start,
            from: self.sealed.end(),
            to: self.events,
            version: 0,
            rows: self.open_range.len(),
            sealed: false,
        }
    }

    /// The open range with a share of its index, of which no row is copied. The only error is that memory ran out.
    pub fn open_fragment(&self, alloc: Global) -> Result<SharedFragment, AllocError>
        ensures { IfOk result (λ fragment. fragment ≡ open_fragment self.now) }
    {
        let from = self.sealed.end();
        self.open_range.pin(alloc, self.start, from, self.events)
    }

    /// Puts the ranges behind these, as a snapshot shows them, and shares of their fragments. No row is copied. The only
    /// error is that memory ran out.
    pub fn pin(
        &self,
        alloc: Global,
        pinned: &mut Fragments,
        ranges: &mut Vec<RangeInfo>,
    ) -> Result<(), AllocError>
        ensures pinned { OnOk result (pinned.new ≡ pinned.old ++ fragments_of_chunk self.now) }
        ensures ranges { OnOk result (ranges.new.items ≡ ranges.old.items ++ infos_of_chunk self.now) }
    {
        self.sealed.pin(pinned, ranges)?;
        if self.has_open() {
            ranges.push(self.open_info())?;
            pinned.push(self.open_fragment(alloc)?)?;
        }
        Ok(())
    }

    /// Adds an event to the open range, and seals it with this serial where it has as many rows as it may then. Answers
    /// how many ranges were sealed by it, 0 or 1. The only error is that memory ran out, and it leaves the chunk as it was. It
    /// takes the time of [`OpenIndex::add`](dr_rollup::OpenIndex::add). A seal leaves the rows of its range in their index, but
    /// for at most 64, which it puts into a list.
    pub fn grow(&mut self, alloc: Global, serial: u64, event: &Event) -> Result<u64, AllocError>
        requires event { FitsSchema self.old.open_range.schema event.now }
        requires room { self.old.events < 18446744073709551615 }
        ensures ok { OnOk result (self.new ≡ grown serial event.now self.old) }
        ensures seals { IfOk result (λ seals. seals ≡ seals_of (is_full (with_one event.now self.old))) }
        ensures err { OnErr result (self.new ≡ self.old) }
    {
        if self.open_range.is_nearly_full() {
            return self.grow_near_limit(alloc, serial, event);
        }
        match self.open_range.add(alloc, event)? {
            None => {
                self.events += 1;
                Ok(0)
            }
            Some(_) => unreachable!(),
        }
    }

    // The same where one more row is as many as there may be. Room for a sealed range is made before the event is added.
    fn grow_near_limit(
        &mut self,
        alloc: Global,
        serial: u64,
        event: &Event,
    ) -> Result<u64, AllocError>
        requires event { FitsSchema self.old.open_range.schema event.now }
        requires room { self.old.events < 18446744073709551615 }
        ensures ok { OnOk result (self.new ≡ grown serial event.now self.old) }
        ensures seals { IfOk result (λ seals. seals ≡ seals_of (is_full (with_one event.now self.old))) }
        ensures err { OnErr result (self.new ≡ self.old) }
    {
        let from = self.sealed.end();
        self.sealed.0.reserve(1)?;
        let full = self.open_range.add(alloc, event)?;
        self.events += 1;
        match full {
            None => Ok(0),
            Some(index) => {
                let fragment = SharedFragment::of_index(
                    self.start,
                    from,
                    self.events,
                    index,
                ).compact(alloc);
                self.sealed
                    .0
                    .push(SealedRange {
                        serial,
                        version: 0,
                        fragment,
                    })
                    .unwrap();
                Ok(1)
            }
        }
    }

    /// Seals the open range with this serial, with its index as it is, or at most 64 rows as a list. An error leaves the chunk as
    /// it was.
    pub fn seal(&mut self, alloc: Global, serial: u64) -> Result<(), AllocError>
        ensures ok { OnOk result (self.new ≡ with_open_sealed serial self.old) }
        ensures err { OnErr result (self.new ≡ self.old) }
    {
        let fragment = self.open_fragment(alloc)?.compact(alloc);
        self.sealed.push(SealedRange {
            serial,
            version: 0,
            fragment,
        })?;
        self.open_range.clear();
        Ok(())
    }
}
