use crate::progress::Progress;

/// Who is told how far a load is. It is told by the thread that asks queries, outside of the node's lock.
pub trait Watch {
    /// A query was answered.
    fn told(&self, progress: Progress);
}

/// Nobody.
#[derive(Clone, Copy, Debug, PartialEq, Eq)]
pub struct NoWatch;

impl Watch for NoWatch {
    fn told(&self, _progress: Progress) {}
}
