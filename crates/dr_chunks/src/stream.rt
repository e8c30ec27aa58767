ghost use Rattle.std.specs.Prelude.{◌≡◌, ◌<◌, ◌≤◌, ◌++◌, ◌∷◌, [], true, Some, length, map, slice_get, IfOk, OnOk, OnErr};
ghost use Rattle.std.specs.List.{flat_map};
ghost use Rattle.dr_chunks.specs.Times.{times};

use crate::block::Block;
use crate::times::wider;
use dr_base::Event;
use dr_fragment::SharedEvent;
use std::alloc::{AllocError, Global};
use std::marker::Model;
use std::mem::replace;

/// How many events are shared together.
const BLOCK: usize = 256;

/// Events in order, which are only added at the end. A contract sees the list of the events, and whether there is room for
/// one more.
///
/// Each event is shared with whoever else holds it, and full blocks of events with the copies of a stream, so that a copy takes
/// memory for the places of less than a block of events.
#[derive(Drop)]
pub struct Stream {
    blocks: Vec<Block>,
    last: Vec<SharedEvent>,
    count: usize,
    // From the least to the greatest time of the events.
    times: Option<(i64, i64)>,
}

impl Model for Stream {
    ghost use Rattle.dr_chunks.specs.Blocks.{EventList, in_blocks, has_room, AreBlocks};

    ghost Value = { EventList };

    ghost view = { λ s. record { items = in_blocks s.blocks.items s.last.items; room = has_room s.last.items s.last.cap } };

    ghost invariant = { λ s. AreBlocks s.blocks.items s.last.items s.count s.times };
}

impl Stream {
    /// No event.
    pub fn new(alloc: Global) -> Stream
        ensures { result.items ≡ [] }
    {
        Stream {
            blocks: Vec::new(alloc),
            last: Vec::new(alloc),
            count: 0,
            times: None,
        }
    }

    /// The allocator that the stream was made with.
    pub fn allocator(&self) -> Global {
        *self.last.allocator()
    }

    /// How many events there are.
    pub fn len(&self) -> usize
        ensures { result ≡ length self.now.items }
    {
        self.count
    }

    /// From the least to the greatest time of the events, both included, in milliseconds since the epoch, as they came; none
    /// where there is no event. It takes constant time.
    pub fn times(&self) -> Option<(i64, i64)>
        ensures { result ≡ times self.now.items }
    {
        self.times
    }

    /// The event at a place, from 0.
    pub fn at(&self, place: usize) -> &Event
        requires { place < length self.now.items }
        ensures { slice_get self.now.items place ≡ Some result.now }
    {
        let block = place / BLOCK;
        if block < self.blocks.len() {
            return self.blocks[block].as_slice()[place % BLOCK].event();
        }
        self.last[place % BLOCK].event()
    }

    /// The events as slices, one behind the other. The only error is that memory ran out. It takes time and memory by the
    /// full blocks.
    pub fn pieces(&self, alloc: Global) -> Result<Vec<&[SharedEvent]>, AllocError>
        ensures { IfOk result (λ pieces. flat_map (λ p. p.now) pieces.items ≡ self.now.items) }
    {
        let mut pieces = slices(alloc, &self.blocks)?;
        pieces.push(self.last.as_slice())?;
        Ok(pieces)
    }

    /// Makes room for one more event. An error leaves the events as they were.
    pub fn reserve(&mut self) -> Result<(), AllocError>
        ensures items { self.new.items ≡ self.old.items }
        ensures room { OnOk result (self.new.room ≡ true) }
    {
        let len = self.last.len();
        if len < BLOCK {
            return self.last.reserve(BLOCK - len);
        }
        let alloc = self.allocator();
        self.blocks.reserve(1)?;
        let block = take_block(alloc, &mut self.last)?;
        self.blocks.push(block).unwrap();
        Ok(())
    }

    /// Adds an event at the end.
    pub fn push(&mut self, event: SharedEvent)
        requires room { self.old.room ≡ true }
        requires few { length self.old.items < 18446744073709551615 }
        ensures { self.new.items ≡ self.old.items ++ event ∷ [] }
    {
        self.times = wider(self.times, event.event().time);
        self.last.push(event).unwrap();
        self.count += 1;
    }

    /// The same events, shared. The only error is that memory ran out. It takes time and memory by the full blocks, and for less than a
    /// block of events.
    pub fn share(&self) -> Result<Stream, AllocError>
        ensures { IfOk result (λ stream. stream.items ≡ self.now.items) }
    {
        let alloc = self.allocator();
        Ok(Stream {
            blocks: share_all(alloc, &self.blocks)?,
            last: share_events(alloc, &self.last)?,
            count: self.count,
            times: self.times,
        })
    }
}

// Takes the events as a block, and leaves room for the next one.
fn take_block(alloc: Global, events: &mut Vec<SharedEvent>) -> Result<Block, AllocError>
    ensures block { IfOk result (λ block. block ≡ events.old.items) }
    ensures empty { OnOk result (events.new.items ≡ []) }
    ensures room { OnOk result (256 ≤ events.new.cap) }
    ensures err { OnErr result (events.new.items ≡ events.old.items) }
{
    let next = Vec::with_capacity(alloc, BLOCK)?;
    match Block::new(alloc, replace(events, next)) {
        Ok(block) => Ok(block),
        Err(failed) => {
            *events = failed.value;
            Err(AllocError)
        }
    }
}

fn slices<'a>(alloc: Global, blocks: &'a [Block]) -> Result<Vec<&'a [SharedEvent]>, AllocError>
    ensures { IfOk result (λ slices. map (λ s. s.now) slices.items ≡ blocks.now) }
{
    let mut slices = Vec::with_capacity(alloc, blocks.len())?;
    for block in blocks {
        slices.push(block.as_slice())?;
    }
    Ok(slices)
}

fn share_all(alloc: Global, blocks: &[Block]) -> Result<Vec<Block>, AllocError>
    ensures { IfOk result (λ shares. shares.items ≡ blocks.now) }
{
    let mut shares = Vec::with_capacity(alloc, blocks.len())?;
    for block in blocks {
        shares.push(block.share()?)?;
    }
    Ok(shares)
}

fn share_events(alloc: Global, events: &[SharedEvent]) -> Result<Vec<SharedEvent>, AllocError>
    ensures { IfOk result (λ shares. shares.items ≡ events.now) }
{
    let mut shares = Vec::with_capacity(alloc, events.len())?;
    for event in events {
        shares.push(event.share()?)?;
    }
    Ok(shares)
}
