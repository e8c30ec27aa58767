//! The bits of words of 64, counted from the lowest.
#![tactic(auto)]

mod bits;

pub use bits::{first_bit, is_set, with_bit};
