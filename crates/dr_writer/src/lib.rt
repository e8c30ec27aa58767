//! The text of the groups that a query gives, as compact JSON. It is written into one buffer, token by token.
#![tactic(auto)]

mod group_writing;
mod ordering;
mod output;
mod stamp;
mod writing;

pub use group_writing::write_dimension;
pub use writing::text_of;
