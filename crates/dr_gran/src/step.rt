ghost use Rattle.std.specs.Prelude.{◌≡◌};
ghost use Rattle.dr_gran.specs.Nesting.{divides as divides_of};
ghost use Rattle.dr_gran.specs.Step.{IsProper};

use dr_time::DAY_MILLIS;

/// How the buckets of a granularity follow one another.
#[derive(Clone, Copy, Debug, PartialEq, Eq)]
pub(crate) enum Step {
    /// An origin, at which a bucket starts, and the length of each: milliseconds since 1970-01-01T00:00:00Z, and milliseconds.
    Millis(i64, u32),
    /// So many months each, counted from January of the year 0.
    Months(u32),
}

impl Step {
    /// Whether the other step is a multiple of this one.
    pub(crate) fn divides(self, other: Step) -> bool
        requires { IsProper self }
        ensures { result ≡ divides_of self other }
    {
        match (self, other) {
            (Step::Millis(_, fine), Step::Millis(_, coarse)) => coarse % fine == 0,
            (Step::Millis(_, fine), Step::Months(_)) => DAY_MILLIS % i64::from(fine) == 0,
            (Step::Months(fine), Step::Months(coarse)) => coarse % fine == 0,
            (Step::Months(_), Step::Millis(..)) => false,
        }
    }
}
