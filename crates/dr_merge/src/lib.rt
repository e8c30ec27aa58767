//! Jobs over adjacent sealed ranges of a chunk, and the work of a job: the ranges joined to one, as an image. A job holds shares
//! of its fragments and nothing of the timeline.
#![tactic(auto)]

mod combining;
mod inputs;
mod job;
mod joining;
mod merge_error;
mod purpose;
mod serials;

pub use job::Job;
pub use joining::work;
pub use merge_error::MergeError;
pub use purpose::Purpose;
pub use serials::Serials;
