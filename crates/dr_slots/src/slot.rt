/// A slot of a table: the hash of a key, and behind which place the row of the key stands; 0 where the slot is empty.
#[derive(Debug, Clone, Copy)]
pub struct Slot {
    pub hash: u32,
    pub end: u32,
}
