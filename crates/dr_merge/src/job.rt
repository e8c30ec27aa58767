use crate::purpose::Purpose;
use crate::serials::Serials;
use dr_fragment::Fragments;

/// Adjacent sealed ranges of a chunk that are to become one: the start of the chunk in milliseconds since the epoch, the
/// serials of the ranges, and their fragments, in order. It holds no reference to the timeline.
#[derive(Drop)]
pub struct Job {
    pub chunk: i64,
    pub serials: Serials,
    pub inputs: Fragments,
    pub purpose: Purpose,
}
