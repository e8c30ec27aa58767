//! Which of many rows a filter keeps. They are put in order once by each dimension that is asked for, and by their times; a test of
//! texts, ranges or intervals then finds the rows that pass by two searches, and what tells of all rows is joined 64 rows at once.
#![tactic(auto)]

mod asked_for;
mod bounds;
mod by_row;
mod choosing;
mod long_patterns;
mod lot;
mod lots;
mod passing;
mod placed_letters;
mod placed_order;
mod rows;

pub use choosing::select;
pub use lots::{ROWS_ALONE, ROWS_AT_ONCE, filter_of_many, is_asked_at_once, lot_end};
pub use rows::{select_arrived, select_rows};
