//! The partial result of a timeseries or groupBy over the ranges of a snapshot by several threads at once. Each works on a share
//! of the ranges, and what they found is merged.
#![tactic(auto)]

mod halves;
mod merging;
mod scatter_error;
mod scattering;
mod sharing;
mod threads;

pub use scatter_error::ScatterError;
pub use scattering::scatter;
