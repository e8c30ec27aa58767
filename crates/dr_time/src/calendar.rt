ghost use Rattle.std.specs.Prelude.{◌≡◌, ◌<◌, ◌≤◌, ◌≤ℤ◌, neg_ℤ, pos, IfOk};
ghost use Rattle.jiff_core.specs.Calendar.{IsEpochDay};
ghost use Rattle.dr_time.specs.Calendar.{days_before_1970, since_year_zero, first_day, month_at, year_at, month_of_year_at, day_of_month_at};
ghost use Rattle.dr_time.specs.Instant.{day_of};

use crate::time_error::TimeError;
use jiff::civil::{Date, date};
use jiff_core::civil;

/// January of the year 10000, the first month after the calendar of jiff.
const LAST_MONTH: u32 = 120_000;

/// The day number of a date, which is 0 for 1970-01-01; 10 where its month has no such day.
pub(crate) fn day_number(year: u16, month: u16, day: u16) -> Result<i64, TimeError>
    requires year_in { year < 10000 }
    requires month_in { month < 100 }
    requires day_in { day < 100 }
    ensures value { result ≡ day_of year month day }
    ensures bound { IfOk result IsEpochDay }
{
    match Date::new(year as i16, month as i8, day as i8) {
        Ok(date) => Ok(i64::from(date.to_plain().to_unix_epoch_day())),
        Err(_) => Err(TimeError::BadInstant),
    }
}

/// The date of a day number, from 0000-01-01 to 9999-12-31.
pub(crate) fn date_of_day(day: i64) -> Date
    requires low { neg_ℤ (pos days_before_1970) ≤ℤ day }
    requires high { day ≤ℤ pos 2932896 }
    ensures year { result.year ≡ pos (year_at (since_year_zero day)) }
    ensures month { result.month ≡ month_of_year_at (since_year_zero day) }
    ensures day { result.day ≡ day_of_month_at (since_year_zero day) }
{
    Date::from_plain(civil::Date::from_unix_epoch_day(day).unwrap())
}

/// The month of a day from 0000-01-01 to 9999-12-31, by its day number, which is 0 for 1970-01-01.
/// The months are numbered through from January of the year 0, which is 0. An earlier day counts as the first of these
/// days, and a later one as the last.
pub fn month_of_day(day: i64) -> u32
    ensures value { neg_ℤ (pos days_before_1970) ≤ℤ day → day ≤ℤ pos 2932896 → result ≡ month_at (since_year_zero day) }
    ensures bound { result < 120000 }
{
    let date = date_of_day(day.clamp(-719_528, 2_932_896));
    date.year() as u32 * 12 + (date.month() as u32 - 1)
}

/// The day number of the first day of a month, up to January of the year 10000; a later month counts as that one.
pub fn first_day_of_month(month: u32) -> i64
    ensures value { month ≤ 120000 → result ≡ first_day month }
    ensures low { neg_ℤ (pos days_before_1970) ≤ℤ result }
    ensures high { result ≤ℤ pos 2932897 }
{
    if month >= LAST_MONTH {
        return 2_932_897;
    }
    let first = date((month / 12) as i16, (month % 12 + 1) as i8, 1);
    i64::from(first.to_plain().to_unix_epoch_day())
}
