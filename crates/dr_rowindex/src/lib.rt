//! Sets of rows, a bit for each row, 64 to a word, so that what holds of many rows is told at once; and rows in the order of a number
//! or a text that each of them has, by which those that a range holds are found by two searches.
#![tactic(auto)]

mod asked_places;
mod lots;
mod number_order;
mod row_order;
mod row_set;
mod searches;
mod text_order;
mod words;

pub use asked_places::AskedPlaces;
pub use lots::lot_end;
pub use number_order::NumberOrder;
pub use row_set::RowSet;
pub use searches::asks_for_many;
pub use text_order::TextOrder;
