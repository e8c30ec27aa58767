use dr_workers::Gate;
use std::alloc::{AllocError, Global};
use std::sync::atomic::{AtomicBool, AtomicUsize, Ordering};
use std::thread;

/// A gate that counts how often each range is entered, and holds each worker until so many entries were made, for a million
/// turns at most.
#[derive(Drop)]
pub struct Entries {
    of_ranges: Vec<AtomicUsize>,
    all: AtomicUsize,
    awaited: usize,
    late: AtomicBool,
}

impl Entries {
    /// Of so many ranges, none of which was entered yet.
    pub fn new(alloc: Global, ranges: usize, awaited: usize) -> Result<Entries, AllocError> {
        let mut of_ranges = Vec::new(alloc);
        for _ in 0..ranges {
            of_ranges.push(AtomicUsize::new(0))?;
        }
        Ok(Entries {
            of_ranges,
            all: AtomicUsize::new(0),
            awaited,
            late: AtomicBool::new(false),
        })
    }

    /// Whether each range was entered once and no other, and no worker was held for all turns.
    pub fn is_passed(&self) -> bool {
        if self.late.load(Ordering::SeqCst) {
            return false;
        }
        if self.all.load(Ordering::SeqCst) != self.of_ranges.len() {
            return false;
        }
        for entered in self.of_ranges.iter() {
            if entered.load(Ordering::SeqCst) != 1 {
                return false;
            }
        }
        true
    }

    // Waits until so many entries were made, for a million turns at most, and tells whether they were.
    fn wait(&self) -> bool {
        for _ in 0..1_000_000u32 {
            if self.all.load(Ordering::SeqCst) >= self.awaited {
                return true;
            }
            thread::yield_now();
        }
        false
    }
}

impl Gate for Entries {
    fn enter(&self, fragment: usize) {
        if let Some(entered) = self.of_ranges.get(fragment) {
            entered.fetch_add(1, Ordering::SeqCst);
        }
        self.all.fetch_add(1, Ordering::SeqCst);
        if !self.wait() {
            self.late.store(true, Ordering::SeqCst);
        }
    }
}
