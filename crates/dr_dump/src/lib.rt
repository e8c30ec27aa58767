//! The text of an image of a sealed range: what it is an image of, and its rows, a line each. The image is read from the
//! hexadecimal text that spells it.
#![tactic(auto)]

mod dump_error;
mod dumping;
mod laws;
mod reading;
mod row_writing;

pub use dump_error::DumpError;
pub use dumping::dump_text;
pub use laws::printed_is_told;
