use dr_node::Stop;
use std::thread;
use std::time::{Clock, Duration};

/// How long a thread that waits doesn't look whether it is stopped, in microseconds.
const MOMENT: u64 = 1_000;

/// Waits so many microseconds, and no longer than a moment once it is stopped.
pub(crate) fn wait<C: Clock>(clock: &C, stop: &Stop, micros: u64) {
    for _ in 0..micros / MOMENT {
        if stop.is_stopped() {
            return;
        }
        thread::sleep(clock, Duration::from_micros(MOMENT));
    }
    thread::sleep(clock, Duration::from_micros(micros % MOMENT));
}
