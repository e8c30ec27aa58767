//! Where things stand, by their hashes: a table of slots in which each is looked for in a bounded number of them.
#![tactic(auto)]

mod slot;
mod sought;
mod table;

pub use slot::Slot;
pub use sought::Sought;
pub use table::Table;
