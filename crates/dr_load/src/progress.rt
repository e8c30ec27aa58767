ghost use Rattle.std.specs.Prelude.{◌≡◌};
ghost use Rattle.dr_load.specs.Shown.{progress_of};

use dr_timeline::RangeInfo;

/// How far a load is.
#[derive(Clone, Copy, Debug, PartialEq, Eq)]
pub struct Progress {
    /// How many events were accepted.
    pub events: u64,
    /// How many ranges are sealed, published ones among them.
    pub sealed: u64,
    /// How many of these are published.
    pub published: u64,
    /// How many queries were answered.
    pub answers: u64,
}

/// How far a load is, by the ranges of a snapshot.
pub(crate) fn progress_of(events: u64, ranges: &[RangeInfo], answers: u64) -> Progress
    ensures { result ≡ progress_of events ranges.now answers }
{
    let mut sealed = 0u64;
    let mut published = 0u64;
    for range in ranges {
        if range.sealed {
            sealed += 1;
        }
        if range.sealed && range.version > 0 {
            published += 1;
        }
    }
    Progress {
        events,
        sealed,
        published,
        answers,
    }
}
