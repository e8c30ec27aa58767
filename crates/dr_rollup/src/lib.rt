//! The rows of an open range of events: an index that finds the row of an event by hashing, and combines the event into it.
//! Its rows are handed out sorted, and are the rollup of its events. Groups of rows find theirs in the same way.
#![tactic(auto)]

mod arrived;
mod entries;
mod flat_rows;
mod groups;
mod key_of;
mod keyed;
mod open_index;
mod pieces;
mod placed;
mod rollup_error;
mod sorted_rows;
mod text_lists;
mod unrolled;

pub use arrived::Arrived;
pub use groups::Groups;
pub use key_of::KeyOf;
pub use open_index::OpenIndex;
pub use rollup_error::RollupError;
pub use unrolled::{columns_of, push_contributions};
