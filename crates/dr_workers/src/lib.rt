//! The partial result of a timeseries or groupBy over the ranges of a snapshot: the rows of each range in turn are added to those of
//! the ranges before it. A gate is entered before each.
#![tactic(auto)]

mod gate;
mod gathering;
mod one;
mod open_gate;
mod waiting;
mod working;

pub use gate::Gate;
pub use one::{scatter_here, scatter_one};
pub use open_gate::OpenGate;
pub use working::partial_of;
