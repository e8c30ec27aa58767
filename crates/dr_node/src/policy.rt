use dr_timeline::{Purpose, RangeInfo};

/// Which ranges a merger is to merge. It is asked outside of the lock.
pub trait Policy {
    /// The next job over the ranges of a snapshot: the start of the chunk in milliseconds since the epoch, the places of its
    /// sealed ranges from the first to before the second, and the purpose; or none in this turn.
    fn next(&self, ranges: &[RangeInfo]) -> Option<(i64, usize, usize, Purpose)>;

    /// The job was planned; its fragments are joined next.
    fn planned(&self);
}
