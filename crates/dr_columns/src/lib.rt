//! What a query asks of an image, read column by column: which rows it selects, which rows lie in one bucket, which have the same
//! values in the dimensions that it groups by, and what its aggregations fold to over a run of rows. No row is made,
//! but for a filter that is asked of many rows at once.
#![tactic(auto)]

mod at_once;
mod cells;
mod filtering;
mod folding;
mod grouping;
mod numbered;
mod reading;
mod runs;
mod selection;
mod telling;
mod values;

pub use grouping::{agree, columns, read_group, slot, slot_count};
pub use numbered::Numbered;
pub use reading::{Reading, readings};
pub use runs::{run_end, time_at};
pub use selection::{Selection, is_apart, rows_selected};
pub use values::Values;
