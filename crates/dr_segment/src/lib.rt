//! The image of the rows of a sealed range, written from the rows or from their columns. Which bytes it is, is defined in `dr_image`.
#![tactic(auto)]

mod columns;
mod dimension;
mod encoding;
mod first_values;
mod gathering;
mod head;
mod ranking;
mod row_lists;
mod size;
mod writing;

pub use columns::Columns;
pub use dimension::Dimension;
pub use encoding::{encode, encode_columns};
