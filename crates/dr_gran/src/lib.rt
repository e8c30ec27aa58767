//! Time granularities, as the documentation of Apache Druid has them: all of time, a millisecond, a second up to a year.
//! It says in which bucket a time lies and which granularity nests in which, and walks the buckets of a union of intervals.
#![tactic(auto)]

mod buckets;
mod gran;
mod gran_error;
mod laws;
mod parsing;
mod step;

pub use buckets::Buckets;
pub use gran::Gran;
pub use gran_error::GranError;
pub use laws::{
    buckets_are_the_first_filled_ones, buckets_end_at_the_least_start_after,
    each_time_lies_in_one_bucket, nested_buckets_lie_in_one_bucket,
    times_are_truncated_to_the_greatest_start, truncation_passes_through_what_nests,
};
