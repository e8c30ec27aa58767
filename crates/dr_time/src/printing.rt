ghost use Rattle.std.specs.Prelude.{◌≡◌, ◌+◌, ◌<◌, ◌≤◌, ◌≤ℤ◌, pos, neg_ℤ, IfOk, string_bytes};
ghost use Rattle.dr_time.specs.Calendar.{days_before_1970, since_year_zero};
ghost use Rattle.dr_time.specs.Instant.{first_instant};
ghost use Rattle.dr_time.specs.Printed.{IsPrintable, last_printable, instant_text, calendar_text as calendar_text_of, date_text as date_text_of, clock_text as clock_text_of};
ghost use Rattle.jiff_core.specs.Calendar.{IsBetween};

use crate::calendar::date_of_day;
use crate::instant::DAY_MILLIS;
use dr_base::Text;
use std::alloc::{AllocError, Global};

/// The day number of 9999-12-31, the last day of the calendar of jiff.
const LAST_DAY: i64 = 2_932_896;

/// The first time of eternity.
const ETERNITY_START: i64 = -4_611_686_018_427_387_904;

/// The text `YYYY-MM-DDTHH:MM:SS.mmmZ` of a time in milliseconds since 1970-01-01T00:00:00Z, in UTC (ISO 8601).
///
/// The time lies from 0001-01-01 to 10000-01-03T00:00:00.000Z, where the last of the weeks ends that begin before the year 10000; or
/// it is the start of eternity, whose text is `-146136543-09-08T08:23:32.096Z`. The only error is that memory ran out.
#[tactic(auto, unfolding(crate::specs::Printed::instant_text))]
pub fn print_instant(alloc: Global, instant: i64) -> Result<Text, AllocError>
    requires { IsPrintable instant }
    ensures { IfOk result (λ text. text ≡ instant_text instant) }
{
    if instant == ETERNITY_START {
        return Text::from_str(alloc, "-146136543-09-08T08:23:32.096Z");
    }
    calendar_text(alloc, instant)
}

#[tactic(auto, unfolding(crate::specs::Printed::calendar_text))]
fn calendar_text(alloc: Global, instant: i64) -> Result<Text, AllocError>
    requires low { first_instant ≤ℤ instant }
    requires high { instant ≤ℤ last_printable }
    ensures { IfOk result (λ text. text ≡ calendar_text_of instant) }
{
    let date = date_text(alloc, instant.div_euclid(DAY_MILLIS))?;
    let clock = clock_text(alloc, instant.rem_euclid(DAY_MILLIS) as u32)?;
    let text = Text::from_string(alloc, format!(in alloc; "{date}T{clock}Z")?)?;
    Ok(text)
}

fn date_text(alloc: Global, day: i64) -> Result<String, AllocError>
    requires { IsBetween (neg_ℤ (pos days_before_1970)) (pos 2932899) day }
    ensures { IfOk result (λ s. string_bytes s ≡ date_text_of (since_year_zero day)) }
{
    if day > LAST_DAY {
        return late_date_text(alloc, (day - LAST_DAY) as u8);
    }
    let date = date_of_day(day);
    let year = date.year() as u16;
    let month = date.month() as u8;
    let day = date.day() as u8;
    format!(in alloc; "{year:04}-{month:02}-{day:02}")
}

fn clock_text(alloc: Global, millis: u32) -> Result<String, AllocError>
    requires { millis < 86400000 }
    ensures { IfOk result (λ s. string_bytes s ≡ clock_text_of millis) }
{
    let hour = millis / 3_600_000;
    let minute = millis / 60_000 % 60;
    let second = millis / 1_000 % 60;
    let fraction = millis % 1_000;
    format!(in alloc; "{hour:02}:{minute:02}:{second:02}.{fraction:03}")
}

/// A date of January of the year 10000, by its day.
fn late_date_text(alloc: Global, day: u8) -> Result<String, AllocError>
    requires low { 1 ≤ day }
    requires high { day ≤ 3 }
    ensures { IfOk result (λ s. string_bytes s ≡ date_text_of (3652424 + day)) }
{
    format!(in alloc; "10000-01-{day:02}")
}
