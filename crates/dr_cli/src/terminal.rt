use dr_load::{Progress, Watch};
use std::sync::atomic::{AtomicU64, Ordering};
use std::time::{Clock, Instant};

/// How many milliseconds a line stays at least.
const SHORTEST: u64 = 100;

/// Tells on a terminal how far a load is, in one line that is written anew at most ten times a second.
#[derive(Drop)]
pub struct Terminal<'a, T> {
    rt: &'a T,
    begun: Option<Instant>,
    // When the line was written last, in milliseconds since the load began.
    written: AtomicU64,
}

impl<'a, T: Clock + Eprint> Terminal<'a, T> {
    pub fn new(rt: &'a T) -> Terminal<'a, T> {
        Terminal {
            rt,
            begun: Instant::now(rt).ok(),
            written: AtomicU64::new(0),
        }
    }

    /// Takes the line away.
    pub fn clear(&self) {
        let _ = self.rt.eprint("\r\x1b[K");
    }

    // The milliseconds since the load began; 0 where there is no clock.
    fn passed(&self) -> u64 {
        match self.begun {
            Some(begun) => match begun.elapsed(self.rt) {
                Ok(passed) => passed.as_millis().min(u128::from(u64::MAX)) as u64,
                Err(_) => 0,
            },
            None => 0,
        }
    }
}

impl<T: AllocGlobal + Clock + Eprint> Watch for Terminal<'_, T> {
    fn told(&self, progress: Progress) {
        let passed = self.passed();
        if passed < self.written.load(Ordering::SeqCst).saturating_add(SHORTEST) {
            return;
        }
        self.written.store(passed, Ordering::SeqCst);
        let each_second = progress.events.saturating_mul(1000) / passed.max(1);
        let line = format!(in self.rt.alloc();
            "\r{} events, {} a second; {} ranges sealed, {} of them published; {} queries answered\x1b[K",
            progress.events, each_second, progress.sealed, progress.published, progress.answers
        );
        if let Ok(line) = line {
            let _ = self.rt.eprint(line.as_str());
        }
    }
}
