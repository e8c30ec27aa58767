ghost use Rattle.std.specs.Prelude.{◌≡◌, ◌+◌, ◌<◌, ◌≤◌, None, ℕ, true, suc, slice_get, IfOk, IfSome};
ghost use Rattle.dr_slots.specs.Table.{start, Finds, KeepsFound, IsFree};

use crate::slot::Slot;
use crate::sought::Sought;
use std::alloc::{AllocError, Global};

// In how many slots a hash is looked for at most.
const LOOKS: usize = 64;

/// Places at which things stand, by the hashes of the things: each in the slot of its hash or in one of the next. A hash is looked for
/// in 64 slots at most, so a thing may find no empty one: then the table can't have it, and who puts it in keeps it elsewhere.
///
/// It takes 8 bytes a slot, of which half at most are taken where hashes differ.
#[derive(Debug, Drop)]
pub struct Table {
    slots: Vec<Slot>,
    mask: usize,
    taken: usize,
    most: usize,
}

impl Table {
    /// No place. It takes no memory yet.
    pub fn new(alloc: Global) -> Table {
        Table {
            slots: Vec::new(alloc),
            mask: 0,
            taken: 0,
            most: 0,
        }
    }

    /// A place of this hash at which what is sought stands, where the table has one. It takes no memory, and asks of 64 places at most,
    /// mostly of one.
    pub fn find<S: Sought>(&self, hash: u32, sought: &S) -> Option<usize>
        ensures found { IfSome result (S.stands sought.now) }
        ensures none { result ≡ None → (place : ℕ) → Finds self.now hash place → S.stands sought.now place → ⊥ }
    {
        for look in 0..LOOKS {
            let Some(slot) = self.slot(hash, look) else {
                return None;
            };
            if slot.end == 0 {
                return None;
            }
            let place = slot.end as usize - 1;
            if slot.hash == hash && sought.stands_at(place) {
                return Some(place);
            }
        }
        None
    }

    /// Puts a place under a hash, and answers whether there was a slot for it; each place that was found before still is. Where there are
    /// places for half of the slots, it makes twice as many first, in which each place keeps a slot; where one wouldn't, there stay as
    /// many as there are. The only error is that memory ran out. It takes constant time on the average over all calls.
    pub fn put(&mut self, hash: u32, place: usize) -> Result<bool, AllocError>
        ensures put { IfOk result (λ there. there ≡ true → Finds self.new hash place) }
        ensures kept { KeepsFound self.old self.new }
    {
        self.make_room()?;
        match u32::try_from(place.saturating_add(1)) {
            Ok(end) => Ok(self.put_end(hash, end)),
            Err(_) => Ok(false),
        }
    }

    /// The same places in memory of their own. The only error is that memory ran out.
    pub fn copy(&self, alloc: Global) -> Result<Table, AllocError>
        ensures { IfOk result (KeepsFound self.now) }
    {
        Ok(Table {
            slots: Vec::from_slice(alloc, self.slots.as_slice())?,
            mask: self.mask,
            taken: self.taken,
            most: self.most,
        })
    }

    // The slot of a hash.
    #[inline]
    fn first(&self, hash: u32) -> usize
        ensures start { result ≡ start self.now hash }
        ensures small { result ≤ hash }
    {
        hash as usize & self.mask
    }

    // The slot that stands so many behind that of a hash, where there is one.
    #[inline]
    fn slot(&self, hash: u32, look: usize) -> Option<Slot>
        requires { look < 64 }
        ensures { result ≡ slice_get self.now.slots.items (start self.now hash + look) }
    {
        match self.slots.get(self.first(hash) + look) {
            Some(slot) => Some(*slot),
            None => None,
        }
    }

    // The first empty slot among those in which a hash is looked for.
    fn free(&self, hash: u32) -> Option<usize>
        ensures { IfSome result (IsFree self.now hash) }
    {
        for look in 0..LOOKS {
            match self.slot(hash, look) {
                Some(slot) => {
                    if slot.end == 0 {
                        return Some(self.first(hash) + look);
                    }
                }
                None => return None,
            }
        }
        None
    }

    // Puts what ends a place into a slot, and answers whether there was one.
    fn put_end(&mut self, hash: u32, end: u32) -> bool
        ensures put { result ≡ true → (place : ℕ) → end ≡ suc place → Finds self.new hash place }
        ensures kept { KeepsFound self.old self.new }
    {
        match self.free(hash) {
            Some(at) => {
                self.slots[at] = Slot { hash, end };
                self.taken = self.taken.saturating_add(1);
                true
            }
            None => false,
        }
    }

    // Makes room, so that half of the slots are empty, where each place keeps a slot.
    fn make_room(&mut self) -> Result<(), AllocError>
        ensures { KeepsFound self.old self.new }
    {
        if self.taken < self.most {
            return Ok(());
        }
        match self.grown()? {
            Some(table) => *self = table,
            None => self.most = usize::MAX,
        }
        Ok(())
    }

    // The same places in twice as many slots, where each finds one.
    fn grown(&self) -> Result<Option<Table>, AllocError>
        ensures { IfOk result (λ grown. IfSome grown (KeepsFound self.now)) }
    {
        let mut table = self.wider()?;
        for i in 0..self.slots.len() {
            let slot = self.slots[i];
            if slot.end > 0 && !table.put_end(slot.hash, slot.end) {
                return Ok(None);
            }
        }
        Ok(Some(table))
    }

    // Twice as many slots, all empty.
    fn wider(&self) -> Result<Table, AllocError> {
        let size = self.mask.saturating_add(1).saturating_mul(2);
        let empty = Slot { hash: 0, end: 0 };
        let slots = vec![in *self.slots.allocator(); empty; size.saturating_add(size.min(LOOKS))]?;
        Ok(Table {
            slots,
            mask: size.saturating_sub(1),
            taken: 0,
            most: size / 2,
        })
    }
}
