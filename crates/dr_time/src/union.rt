ghost use Rattle.std.specs.Prelude.{◌≡◌, true, IfOk};
ghost use Rattle.dr_time.specs.Shared.{AreShared, AreLeft};
ghost use Rattle.dr_time.specs.Union.{HoldsAll, union_holds, union_start, union_first_from};

use crate::interval::Interval;
use crate::joined::Joined;
use std::alloc::{AllocError, Global};
use std::marker::Model;

/// The times that lie in one of some intervals. A contract sees it as the list of the intervals.
#[derive(Debug, Drop)]
pub struct Union {
    given: Vec<Interval>,
    // The same times, to find one among them.
    joined: Joined,
}

impl Model for Union {
    ghost use Rattle.std.specs.Prelude.{List};
    ghost use Rattle.dr_time.specs.declared.interval.Interval.{Interval};
    ghost use Rattle.dr_time.specs.Joined.{HoldSame};

    ghost Value = { List Interval };

    ghost view = { λ u. u.given.items };

    ghost invariant = { λ u. HoldSame u.joined u.given.items };
}

impl Union {
    /// The union of these intervals, which may overlap, touch and be empty. They are sorted once: n intervals take time by
    /// n log n. The only error is that memory ran out.
    pub fn of(alloc: Global, intervals: &[Interval]) -> Result<Union, AllocError>
        ensures { IfOk result (λ u. u ≡ intervals.now) }
    {
        Ok(Union {
            given: Vec::from_slice(alloc, intervals)?,
            joined: Joined::of(alloc, intervals)?,
        })
    }

    /// An equal union. The only error is that memory ran out. It takes time and memory by the intervals.
    pub fn copy(&self) -> Result<Union, AllocError>
        ensures { IfOk result (λ u. u ≡ self.now) }
    {
        Ok(Union {
            given: Vec::from_slice(*self.given.allocator(), self.intervals())?,
            joined: self.joined.copy()?,
        })
    }

    /// The times that lie in both of two unions. The only error is that memory ran out. It takes time and memory by the intervals of
    /// both.
    pub fn intersection(&self, other: &Union) -> Result<Union, AllocError>
        ensures { IfOk result (λ u. AreShared self.now other.now u) }
    {
        let joined = self.joined.intersection(&other.joined)?;
        Ok(Union {
            given: Vec::from_slice(*self.given.allocator(), joined.intervals())?,
            joined,
        })
    }

    /// The times of the union that another one lacks. The only error is that memory ran out. It takes time and memory by the intervals
    /// of both.
    pub fn difference(&self, other: &Union) -> Result<Union, AllocError>
        ensures { IfOk result (λ u. AreLeft self.now other.now u) }
    {
        let joined = self.joined.difference(&other.joined)?;
        Ok(Union {
            given: Vec::from_slice(*self.given.allocator(), joined.intervals())?,
            joined,
        })
    }

    /// The intervals, in the order in which they were given.
    pub fn intervals(&self) -> &[Interval]
        ensures { result.now ≡ self.now }
    {
        self.given.as_slice()
    }

    /// Whether one of the intervals holds this time, in time logarithmic in their number.
    pub fn contains(&self, time: i64) -> bool
        ensures { result ≡ union_holds self.now time }
    {
        self.joined.contains(time)
    }

    /// Whether each time from `least` to `greatest`, both inside, lies in one of the intervals, which may hold them together; where
    /// `greatest` lies before `least` there is no such time, and it is true. It takes time logarithmic in the number of the
    /// intervals, and no memory.
    pub fn holds_all(&self, least: i64, greatest: i64) -> bool
        ensures all { result ≡ true → HoldsAll self.now least greatest }
        ensures only { HoldsAll self.now least greatest → result ≡ true }
    {
        self.joined.holds_all(least, greatest)
    }

    /// The least start of the intervals that aren't empty, which is the first time of the union, in milliseconds since the epoch; none
    /// where all are empty. It takes constant time and no memory.
    pub fn start(&self) -> Option<i64>
        ensures { result ≡ union_start self.now }
    {
        self.joined.start()
    }

    /// The first time of the union that isn't before `from`, in time logarithmic in the number of the intervals.
    pub fn first_from(&self, from: i64) -> Option<i64>
        ensures { result ≡ union_first_from from self.now }
    {
        self.joined.first_from(from)
    }
}
