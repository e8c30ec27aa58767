use std::sync::atomic::{AtomicBool, Ordering};

/// Whether a merger is to end. It is one word that any thread may set. It takes no memory.
#[derive(Drop)]
pub struct Stop {
    stopped: AtomicBool,
}

impl Stop {
    /// Not stopped yet.
    pub const fn new() -> Stop {
        Stop {
            stopped: AtomicBool::new(false),
        }
    }

    /// Asks mergers to end. Each that sees it ends before its next turn.
    pub fn stop(&self) {
        self.stopped.store(true, Ordering::SeqCst);
    }

    /// Whether a stop was asked for.
    pub fn is_stopped(&self) -> bool {
        self.stopped.load(Ordering::SeqCst)
    }
}
