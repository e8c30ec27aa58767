//! The partial result of a timeseries or groupBy over rows: its groups, by bucket and dimension values, with what each
//! aggregation folds to. One pass over the rows, in which each finds its group by hashing.
#![tactic(auto)]

mod arrived_runs;
mod at_once;
mod events;
mod folds;
mod fragments;
mod grouping;
mod index;
mod known;
mod laws;
mod merging;
mod partial;
mod placing;
mod reading;
mod rows;
mod selecting;
mod source;
mod views;
mod whole_runs;
mod window;

pub use laws::groups_from_partial;
pub use partial::Partial;
