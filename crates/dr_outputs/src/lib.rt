//! The outputs of a groupBy: their names, each found in an ordered map, and the values of a group, output by output, where only
//! those that differ are kept.
#![tactic(auto)]

mod output_names;
mod output_numbers;
mod output_texts;

pub use output_names::OutputNames;
pub use output_numbers::{OutputNumbers, number_at};
pub use output_texts::{OutputTexts, text_at};
