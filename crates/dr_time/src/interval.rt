ghost use Rattle.std.specs.Prelude.{◌≡◌};
ghost use Rattle.dr_time.specs.Instant.{instant_of};
ghost use Rattle.dr_time.specs.Interval.{holds_time, is_empty as is_empty_of, interval_of, between_instants as between_instants_of, as_part, first_time, first_time_from};
ghost use Rattle.dr_time.specs.Shared.{shared_with as shared_with_of};

use crate::instant::parse_instant;
use crate::time_error::TimeError;

const ETERNITY_TEXT: &str = "-146136543-09-08T08:23:32.096Z/146140482-04-24T15:36:27.903Z";

const ETERNITY: Interval = Interval {
    start: -4_611_686_018_427_387_904,
    end: 4_611_686_018_427_387_903,
};

/// The times from `start`, which is inside, to `end`, which isn't, in milliseconds since 1970-01-01T00:00:00Z.
#[derive(Clone, Copy, Debug, PartialEq, Eq)]
pub struct Interval {
    pub start: i64,
    pub end: i64,
}

impl Interval {
    /// Whether the interval holds this time.
    pub fn contains(&self, time: i64) -> bool
        ensures { result ≡ holds_time self.now time }
    {
        self.start <= time && time < self.end
    }

    /// Whether the interval holds no time.
    pub fn is_empty(&self) -> bool
        ensures { result ≡ is_empty_of self.now }
    {
        self.end <= self.start
    }

    // The times that both hold.
    pub(crate) fn shared_with(&self, other: &Interval) -> Interval
        ensures { result ≡ shared_with_of self.now other.now }
    {
        Interval {
            start: self.start.max(other.start),
            end: self.end.min(other.end),
        }
    }

    /// The start of an interval that isn't empty.
    pub fn first(&self) -> Option<i64>
        ensures { result ≡ first_time self.now }
    {
        if self.is_empty() {
            None
        } else {
            Some(self.start)
        }
    }

    /// The first time of the interval that isn't before `from`.
    pub fn first_from(&self, from: i64) -> Option<i64>
        ensures { result ≡ first_time_from from self.now }
    {
        let first = from.max(self.start);
        if first < self.end { Some(first) } else { None }
    }
}

/// The interval that a text names: two instants with a `/` between them (ISO 8601), or eternity.
///
/// The text is cut at its first `/`, and the part before it is judged first. Without a `/`, and where a part is no instant,
/// the text is 12; an instant out of range is 11; an end before the start is 13. Two equal instants are an empty interval.
///
/// The one text `-146136543-09-08T08:23:32.096Z/146140482-04-24T15:36:27.903Z` is eternity (Apache Druid documentation,
/// intervals), from -4611686018427387904 to 4611686018427387903, which holds the time of every event. Its ends are no instants.
#[tactic(auto, unfolding(crate::specs::Interval::interval_of))]
pub fn parse_interval(text: &str) -> Result<Interval, TimeError>
    ensures { result ≡ interval_of text.now }
{
    if text == ETERNITY_TEXT {
        return Ok(ETERNITY);
    }
    between_instants(text)
}

#[tactic(auto, unfolding(crate::specs::Interval::between_instants))]
fn between_instants(text: &str) -> Result<Interval, TimeError>
    ensures { result ≡ between_instants_of text.now }
{
    let Some((start, end)) = text.split_once('/') else {
        return Err(TimeError::BadInterval);
    };
    let start = part(start)?;
    let end = part(end)?;
    if end < start {
        return Err(TimeError::EndBeforeStart);
    }
    Ok(Interval { start, end })
}

fn part(text: &str) -> Result<i64, TimeError>
    ensures { result ≡ as_part (instant_of text.now) }
{
    parse_instant(text).map_err(|error| match error {
        TimeError::BadInstant => TimeError::BadInterval,
        other => other,
    })
}
