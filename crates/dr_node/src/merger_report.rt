/// What a merger did until it was stopped. A count stays at 2^64 - 1 once it is there.
#[derive(Clone, Copy, Debug, PartialEq, Eq)]
pub struct MergerReport {
    /// Jobs that were committed.
    pub commits: u64,
    /// Jobs whose ranges were not there any more, when they were planned or when they were committed.
    pub stale: u64,
}
