use dr_load::{Progress, Watch};
use std::sync::atomic::{AtomicBool, Ordering};

/// Sets a flag once it is told that a range is published.
#[derive(Drop)]
pub struct Publications<'a> {
    pub seen: &'a AtomicBool,
}

impl Watch for Publications<'_> {
    fn told(&self, progress: Progress) {
        if progress.published > 0 {
            self.seen.store(true, Ordering::SeqCst);
        }
    }
}
