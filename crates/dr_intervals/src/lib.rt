//! The intervals that a query or a filter asks for, read from JSON.
//! What is not read is handed up with its name, since queries and filters number that refusal differently.
#![tactic(auto)]

mod intervals_error;
mod reading;

pub use intervals_error::IntervalsError;
pub use reading::{intervals, start};
