ghost use Rattle.std.specs.Prelude.{◌≡◌, ◌&&◌, ◌≤ℤ◌, ◌<ℤ◌, ℤ, true, int_le, int_lt};
ghost use Rattle.dr_time.specs.Instant.{IsInstant};
ghost use Rattle.dr_time.specs.Interval.{holds_time};
ghost use Rattle.dr_time.specs.Union.{union_holds};
ghost use Rattle.dr_ask.specs.Once.{asked_once};
ghost use Rattle.dr_partial.specs.Runs.{IsWindow};

use crate::selecting::bucket_start;
use dr_ask::Query;
use dr_time::{Interval, Union};

// Of how many intervals the first is sought that holds a time.
const SOUGHT: usize = 8;

/// Times that an interval of a query holds and that lie in one bucket: those from one on, up to another. With the start of the bucket.
#[derive(Clone, Copy)]
pub struct Window {
    pub from: i64,
    pub to: i64,
    pub bucket: i64,
}

impl Window {
    /// Times around one that the intervals hold. It takes constant time, and with granularity `all` time by the intervals.
    pub fn around(query: &Query, time: i64) -> Window
        requires instant { IsInstant time }
        requires held { union_holds query.now.intervals time ≡ true }
        ensures same { IsWindow (asked_once query.now) result }
        ensures own { (result.from ≤ℤ time) × (time <ℤ result.to) }
    {
        let bucket = bucket_start(query, time);
        let held = held_around(&query.intervals, time);
        if query.granularity.is_all() {
            return Window {
                from: held.start,
                to: held.end,
                bucket,
            };
        }
        Window {
            from: held.start.max(query.granularity.truncate(time)),
            to: held.end.min(query.granularity.bucket_end(time)),
            bucket,
        }
    }

    /// Whether a time is one of them.
    #[inline]
    pub fn holds(&self, time: i64) -> bool
        ensures { result ≡ (int_le self.now.from time && int_lt time self.now.to) }
    {
        self.from <= time && time < self.to
    }
}

// Times around one that a union holds, all of which it holds: those of one of its first intervals, or that time alone.
fn held_around(union: &Union, time: i64) -> Interval
    requires instant { IsInstant time }
    requires held { union_holds union.now time ≡ true }
    ensures held { (t : ℤ) → holds_time result t ≡ true → union_holds union.now t ≡ true }
    ensures own { holds_time result time ≡ true }
{
    for (i, interval) in union.intervals().iter().enumerate() {
        if interval.contains(time) {
            return *interval;
        }
        if i == SOUGHT {
            return only(time);
        }
    }
    only(time)
}

// The interval of one time.
fn only(time: i64) -> Interval
    requires { IsInstant time }
    ensures only { (t : ℤ) → holds_time result t ≡ true → t ≡ time }
    ensures own { holds_time result time ≡ true }
{
    Interval {
        start: time,
        end: time + 1,
    }
}
