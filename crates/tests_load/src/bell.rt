use dr_load::{Progress, Watch};
use std::sync::atomic::{AtomicBool, Ordering};

/// Sets a flag once it is told that a query was answered.
#[derive(Drop)]
pub struct Bell<'a> {
    pub rung: &'a AtomicBool,
}

impl Watch for Bell<'_> {
    fn told(&self, progress: Progress) {
        if progress.answers > 0 {
            self.rung.store(true, Ordering::SeqCst);
        }
    }
}
