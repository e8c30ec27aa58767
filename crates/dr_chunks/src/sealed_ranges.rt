ghost use Rattle.std.specs.Prelude.{◌≡◌, ◌+◌, ◌≤◌, ◌<◌, ◌++◌, ◌∷◌, [], OnOk, OnErr, length, map, take, drop};
ghost use Rattle.dr_chunks.specs.Held.{range_of, info_of};
ghost use Rattle.dr_cuts.specs.State.{open_from};

use crate::sealed_range::SealedRange;
use dr_cuts::RangeInfo;
use dr_fragment::Fragments;
use std::alloc::{AllocError, Global};
use std::marker::Model;

/// The sealed ranges of a chunk, in order. A contract sees the list of the ranges.
#[derive(Drop)]
pub struct SealedRanges(pub(crate) Vec<SealedRange>);

impl Model for SealedRanges {
    ghost use Rattle.std.specs.Prelude.{List};
    ghost use Rattle.dr_chunks.specs.declared.sealed_range.SealedRange.{SealedRange};

    ghost Value = { List SealedRange };

    ghost view = { λ s. s.0.items };
}

impl SealedRanges {
    /// No range.
    pub fn new(alloc: Global) -> SealedRanges
        ensures { result ≡ [] }
    {
        SealedRanges(Vec::new(alloc))
    }

    /// The ranges as a slice.
    pub fn as_slice(&self) -> &[SealedRange]
        ensures { result.now ≡ self.now }
    {
        self.0.as_slice()
    }

    /// How many ranges there are.
    pub fn len(&self) -> usize
        ensures { result ≡ length self.now }
    {
        self.0.len()
    }

    /// Where the last range ends; 0 where there is none.
    pub fn end(&self) -> usize
        ensures { result ≡ open_from (map range_of self.now) }
    {
        match self.0.last() {
            None => 0,
            Some(range) => range.fragment.range().1,
        }
    }

    /// Adds a range at the end. An error leaves the list as it was.
    pub fn push(&mut self, range: SealedRange) -> Result<(), AllocError>
        ensures ok { OnOk result (self.new ≡ self.old ++ range ∷ []) }
        ensures err { OnErr result (self.new ≡ self.old) }
    {
        self.0.push(range)?;
        Ok(())
    }

    /// Puts a range in the place of so many from a place on.
    pub fn replace(&mut self, place: usize, count: usize, range: SealedRange)
        requires some { 0 < count }
        requires within { place + count ≤ length self.old }
        ensures { self.new ≡ take place self.old ++ (range ∷ drop (place + count) self.old) }
    {
        self.0[place] = range;
        drop(self.0.drain(place + 1..place + count));
    }

    /// Puts the ranges behind these, as a snapshot shows them, and shares of their fragments. No row is copied. The only error is that
    /// memory ran out.
    pub fn pin(&self, pinned: &mut Fragments, ranges: &mut Vec<RangeInfo>) -> Result<(), AllocError>
        ensures pinned { OnOk result (pinned.new ≡ pinned.old ++ map (λ s. s.fragment) self.now) }
        ensures ranges { OnOk result (ranges.new.items ≡ ranges.old.items ++ map info_of self.now) }
    {
        for range in self.as_slice() {
            ranges.push(range.info())?;
            pinned.push(range.fragment.share()?)?;
        }
        Ok(())
    }
}
