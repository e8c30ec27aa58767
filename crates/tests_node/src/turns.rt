use crate::events::DAY;
use dr_node::{Policy, Stop};
use dr_timeline::{Gate, Purpose, RangeInfo};
use std::sync::atomic::{AtomicBool, Ordering};
use std::thread;

/// Waits until a flag is set, for so many turns at most, and tells whether it was.
pub fn wait_for(flag: &AtomicBool) -> bool {
    for _ in 0..1_000_000u32 {
        if flag.load(Ordering::SeqCst) {
            return true;
        }
        thread::yield_now();
    }
    false
}

/// A policy that names ranges once, to be merged or published, and stops its merger at its next turn. It is held until another thread
/// has answered, while it is asked or once the job is planned.
#[derive(Drop)]
pub struct Once {
    /// What its merger is stopped by.
    pub stop: Stop,
    while_asked: bool,
    named: (usize, usize, Purpose),
    asked: AtomicBool,
    /// Whether it is held, or was.
    pub entered: AtomicBool,
    /// Whether the other thread has answered.
    pub answered: AtomicBool,
    /// Whether it was held for all turns, and the other thread hadn't answered.
    pub late: AtomicBool,
}

impl Once {
    /// A policy that names the ranges from a place to before another one, and for what.
    pub fn new(while_asked: bool, named: (usize, usize, Purpose)) -> Once {
        Once {
            stop: Stop::new(),
            while_asked,
            named,
            asked: AtomicBool::new(false),
            entered: AtomicBool::new(false),
            answered: AtomicBool::new(false),
            late: AtomicBool::new(false),
        }
    }

    fn hold(&self) {
        self.entered.store(true, Ordering::SeqCst);
        let late = !wait_for(&self.answered);
        self.late.store(late, Ordering::SeqCst);
    }
}

impl Policy for Once {
    fn next(&self, _ranges: &[RangeInfo]) -> Option<(i64, usize, usize, Purpose)> {
        if self.asked.swap(true, Ordering::SeqCst) {
            self.stop.stop();
            return None;
        }
        if self.while_asked {
            self.hold();
        }
        let (lo, hi, purpose) = self.named;
        Some((DAY, lo, hi, purpose))
    }

    fn planned(&self) {
        if !self.while_asked {
            self.hold();
        }
    }
}

/// A gate that holds an answer until another thread has answered.
#[derive(Drop)]
pub struct Held {
    /// Whether it was entered.
    pub entered: AtomicBool,
    /// Whether the other thread has answered.
    pub answered: AtomicBool,
    /// Whether it was held for all turns, and the other thread hadn't answered.
    pub late: AtomicBool,
}

impl Held {
    pub fn new() -> Held {
        Held {
            entered: AtomicBool::new(false),
            answered: AtomicBool::new(false),
            late: AtomicBool::new(false),
        }
    }
}

impl Gate for Held {
    fn enter(&self, _fragment: usize) {
        self.entered.store(true, Ordering::SeqCst);
        let late = !wait_for(&self.answered);
        self.late.store(late, Ordering::SeqCst);
    }
}
