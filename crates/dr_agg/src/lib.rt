//! How the metric columns of rows are combined, and the rollup of rows that are combined by key.
//! It also holds the laws of both, each the contract of a function with an empty body.
#![tactic(auto)]

mod columns;
mod combine;
mod kind;
mod laws;
mod rows;

pub use columns::combine_into;
pub use combine::{Combine, Max, Min, Sum};
pub use kind::{Kind, matches};
pub use laws::{
    absent_column_of_rollup, added_row_fits, column_of_rollup, fold_of_rearranged, fold_of_rollup,
    fold_of_rows_apart, keys_of_rollup, rollup_fits, rollup_is_rising, rollup_is_rollup,
    rollup_is_unique, rollup_of_one_more, rollup_of_pieces, rollup_of_rearranged,
    rollup_of_two_pieces,
};
pub use rows::{rollup_rows, sort_rows};
