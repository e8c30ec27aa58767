ghost use Rattle.std.specs.Prelude.{◌≡◌, ◌<◌, ◌≤◌, ◌≤ℤ◌, pos, neg_ℤ, IfOk};
ghost use Rattle.dr_time.specs.Instant.{Reads, part_behind as part_behind_of, date_of, instant_of, in_range as in_range_of, instant_at as instant_at_of};
ghost use Rattle.jiff_core.specs.Calendar.{IsEpochDay};

use crate::calendar::day_number;
use crate::clock::clock_behind;
use crate::digits::{four_digits, two_digits};
use crate::time_error::TimeError;

/// The milliseconds of a day.
pub const DAY_MILLIS: i64 = 86_400_000;

/// 0001-01-01T00:00:00.000Z, the first instant, in milliseconds since 1970-01-01T00:00:00Z.
pub const FIRST_INSTANT: i64 = -62_135_596_800_000;

/// 9999-12-31T23:59:59.999Z, the last instant, in milliseconds since 1970-01-01T00:00:00Z.
pub const LAST_INSTANT: i64 = 253_402_300_799_999;

/// The instant that a text names, in milliseconds since 1970-01-01T00:00:00Z (ISO 8601, calendar dates).
///
/// The text is `YYYY`, `YYYY-MM` or `YYYY-MM-DD`, which is midnight in UTC at the first day of the year, of the month, or at that
/// day; or a whole date, `T` or one space, and `HH`, `HH:MM`, `HH:MM:SS` or `HH:MM:SS.` with 1 to 9 digits, of which those below the
/// millisecond don't count. A time of day may be followed by its zone, `Z` for UTC or the difference `+HH`, `+HH:MM`, `-HH` or
/// `-HH:MM`; without one it is in UTC.
///
/// Any other text is 10, and so is a day that the calendar doesn't have, an hour from 24 on, or a minute or second from 60 on. An
/// instant before the year 1 or after the year 9999 is 11, which is judged in UTC.
#[tactic(auto, unfolding(crate::specs::Instant::instant_of))]
pub fn parse_instant(text: &str) -> Result<i64, TimeError>
    ensures { result ≡ instant_of text.now }
{
    let (day, behind) = date(text.as_bytes())?;
    let (millis, offset) = clock_behind(behind)?;
    instant_at(day, millis, offset)
}

/// `YYYY[-MM[-DD]]` as a day number, and the text behind, which is empty where the day isn't written.
#[tactic(auto, unfolding(crate::specs::Instant::date_of))]
fn date(text: &[u8]) -> Result<(i64, &[u8]), TimeError>
    ensures value { Reads (λ p. (p.0, p.1.now)) result (date_of text.now) }
    ensures bound { IfOk result (λ p. IsEpochDay p.0) }
{
    let (year, rest) = four_digits(text)?;
    let (month, rest) = part_behind(rest)?;
    let (day, rest) = part_behind(rest)?;
    Ok((day_number(year, month, day)?, rest))
}

/// `-MM` or `-DD` behind a year or a month, and 1 behind which there is nothing.
fn part_behind(text: &[u8]) -> Result<(u16, &[u8]), TimeError>
    ensures value { Reads (λ p. (p.0, p.1.now)) result (part_behind_of text.now) }
    ensures bound { IfOk result (λ p. p.0 < 100) }
{
    match text {
        [] => Ok((1, text)),
        [b'-', rest @ ..] => two_digits(rest),
        _ => Err(TimeError::BadInstant),
    }
}

fn instant_at(day: i64, millis: u32, offset: i64) -> Result<i64, TimeError>
    requires day { IsEpochDay day }
    requires low { neg_ℤ (pos 86400000) ≤ℤ offset }
    requires high { offset ≤ℤ pos 86400000 }
    ensures { result ≡ instant_at_of day millis offset }
{
    in_range(day * DAY_MILLIS + i64::from(millis) - offset)
}

fn in_range(instant: i64) -> Result<i64, TimeError>
    ensures { result ≡ in_range_of instant }
{
    if instant < FIRST_INSTANT || instant > LAST_INSTANT {
        return Err(TimeError::OutOfRange);
    }
    Ok(instant)
}
