//! The chunks that events lie in, the ranges that the list of a chunk is cut into, and the rows of these: definitions alone.
//! Its laws say what chunks events have, that the answer to a matching query doesn't depend on the cuts, and that the answer over
//! raw events doesn't depend on their order.
#![tactic(auto)]

mod laws;
mod range_info;

pub use laws::{answers_over_cuts, chunks_of_events, raw_answers_rearranged};
pub use range_info::RangeInfo;
