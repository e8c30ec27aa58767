//! Which texts fit a pattern of `like`, in which `%` is any run of characters and `_` one character. A text is compared with it
//! in the time of their bytes together, but for patterns of one form, and in no memory.
#![tactic(auto)]

mod laws;
mod letters;
mod like;
mod over;
mod pieces;
mod walked;

pub use laws::{what_fits_is_found, what_is_found_fits};
pub use letters::{split_at_letter, split_first, split_last};
pub use like::fits;
