ghost use Rattle.std.specs.Prelude.{◌≡◌, ◌≤◌, length};
ghost use Rattle.dr_load.specs.Policy.{crowded, leading};

use crate::waiting::wait;
use dr_node::{Policy, Stop};
use dr_timeline::{Purpose, RangeInfo};
use std::sync::atomic::{AtomicU32, Ordering};
use std::time::Clock;

/// The wait after the first turn that finds nothing to do, in microseconds, and how often it is doubled.
const SHORTEST_WAIT: u64 = 500;

const MOST_DOUBLINGS: u32 = 6;

/// Publishes all sealed ranges of the first chunk that has two or more. Where there is none it waits before the next turn, each
/// time twice as long, up to 32 milliseconds, or until it is stopped.
#[derive(Drop)]
pub(crate) struct PublishAll<'a, C> {
    pub(crate) clock: &'a C,
    pub(crate) stop: &'a Stop,
    pub(crate) idle: AtomicU32,
}

impl<C: Clock> Policy for PublishAll<'_, C> {
    fn next(&self, ranges: &[RangeInfo]) -> Option<(i64, usize, usize, Purpose)> {
        match crowded(ranges) {
            Some((chunk, count)) => {
                self.idle.store(0, Ordering::SeqCst);
                Some((chunk, 0, count, Purpose::Publish))
            }
            None => {
                let doublings = self.idle.load(Ordering::SeqCst).min(MOST_DOUBLINGS);
                self.idle.store(doublings + 1, Ordering::SeqCst);
                wait(self.clock, self.stop, SHORTEST_WAIT << doublings);
                None
            }
        }
    }

    fn planned(&self) {}
}

/// The first chunk of which two sealed ranges stand side by side, and how many do.
fn crowded(ranges: &[RangeInfo]) -> Option<(i64, usize)>
    ensures { result ≡ crowded ranges.now }
{
    'places: for place in 0..ranges.len() {
        let range = &ranges[place];
        if range.sealed {
            let more = leading(range.chunk, &ranges[place + 1..]);
            if more > 0 {
                return Some((range.chunk, more + 1));
            }
        }
    }
    None
}

/// How many sealed ranges of a chunk stand first.
fn leading(chunk: i64, ranges: &[RangeInfo]) -> usize
    ensures value { result ≡ leading chunk ranges.now }
    ensures bound { result ≤ length ranges.now }
{
    let mut count = 0;
    'counted: while count < ranges.len() && ranges[count].chunk == chunk && ranges[count].sealed {
        count += 1;
    }
    count
}
