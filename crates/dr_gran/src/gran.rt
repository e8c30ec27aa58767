ghost use Rattle.std.specs.Prelude.{◌≡◌, ◌≤◌, ◌<◌, ◌≤ℤ◌, ◌<ℤ◌, ◌-ℤ◌, false, pos};
ghost use Rattle.std.specs.Int.{int_rem_euclid};
ghost use Rattle.jiff_core.specs.Calendar.{IsBetween};
ghost use Rattle.dr_time.specs.Instant.{IsInstant, first_instant};
ghost use Rattle.dr_gran.specs.Step.{is_all as is_all_of, step_of, month_start as start_of_month};
ghost use Rattle.dr_gran.specs.Truncation.{truncation, next, month_of as month_of_time};
ghost use Rattle.dr_gran.specs.Nesting.{nests};

use crate::step::Step;
use dr_time::{DAY_MILLIS, first_day_of_month, month_of_day};

// A day as the length of a bucket, in milliseconds.
const DAY: u32 = DAY_MILLIS as u32;

/// 2001-01-01T00:00:00.000Z, a Monday.
const MONDAY: i64 = 978_307_200_000;

/// How long the buckets of time are (Apache Druid documentation, query granularities). All are in UTC.
///
/// Two variants are not called by Druid's own names, `all` and `none`, since contracts already use `All` and `None` as words.
#[derive(Clone, Copy, Debug, PartialEq, Eq)]
pub enum Gran {
    /// Druid's `all`: one bucket of all times.
    AllTime,
    /// Druid's `none`: buckets of one millisecond.
    Millisecond,
    Second,
    Minute,
    FiveMinute,
    TenMinute,
    FifteenMinute,
    ThirtyMinute,
    Hour,
    SixHour,
    EightHour,
    Day,
    /// Seven days from a Monday.
    Week,
    Month,
    /// Three months from the first of January, April, July or October.
    Quarter,
    Year,
}

impl Gran {
    /// Whether it is the one bucket of all times.
    pub fn is_all(self) -> bool
        ensures { result ≡ is_all_of self }
    {
        matches!(self, Gran::AllTime)
    }

    /// Whether this granularity nests in the other, as a query granularity does in a segment granularity: then each of its
    /// buckets lies in one bucket of the other. Nothing nests in `all` or in `none`, and `all` nests in nothing.
    pub fn nests_in(self, other: Gran) -> bool
        ensures { result ≡ nests self other }
    {
        match (self, other) {
            (Gran::AllTime, _) | (_, Gran::AllTime | Gran::Millisecond) => false,
            _ => self.step().divides(other.step()),
        }
    }

    fn step(self) -> Step
        ensures { result ≡ step_of self }
    {
        match self {
            Gran::AllTime | Gran::Millisecond => Step::Millis(0, 1),
            Gran::Second => Step::Millis(0, 1_000),
            Gran::Minute => Step::Millis(0, 60_000),
            Gran::FiveMinute => Step::Millis(0, 300_000),
            Gran::TenMinute => Step::Millis(0, 600_000),
            Gran::FifteenMinute => Step::Millis(0, 900_000),
            Gran::ThirtyMinute => Step::Millis(0, 1_800_000),
            Gran::Hour => Step::Millis(0, 3_600_000),
            Gran::SixHour => Step::Millis(0, 21_600_000),
            Gran::EightHour => Step::Millis(0, 28_800_000),
            Gran::Day => Step::Millis(0, DAY),
            Gran::Week => Step::Millis(MONDAY, 604_800_000),
            Gran::Month => Step::Months(1),
            Gran::Quarter => Step::Months(3),
            Gran::Year => Step::Months(12),
        }
    }

    /// The start of the bucket in which a time from 0001-01-01 to 9999-12-31 lies, in milliseconds since
    /// 1970-01-01T00:00:00Z: the greatest start that is not after the time.
    pub fn truncate(self, time: i64) -> i64
        requires kind { is_all_of self ≡ false }
        requires time { IsInstant time }
        ensures value { result ≡ truncation self time }
        ensures low { first_instant ≤ℤ result }
        ensures high { result ≤ℤ time }
    {
        match self.step() {
            Step::Millis(origin, length) => time - into_bucket(time, origin, length),
            Step::Months(count) => month_start(month_of(time) / count * count),
        }
    }

    /// The end of that bucket, which is the start of the next one: the least start after the time. The last bucket of
    /// weeks ends on 10000-01-03, and those of months, quarters and years on 10000-01-01.
    pub fn bucket_end(self, time: i64) -> i64
        requires kind { is_all_of self ≡ false }
        requires time { IsInstant time }
        ensures value { result ≡ next self time }
        ensures low { time <ℤ result }
        ensures high { result ≤ℤ pos 253402473600000 }
    {
        match self.step() {
            Step::Millis(origin, length) => {
                time - into_bucket(time, origin, length) + i64::from(length)
            }
            Step::Months(count) => month_start(month_of(time) / count * count + count),
        }
    }
}

/// How long a time lies behind the start of its bucket, where one starts at the origin and all have this length.
fn into_bucket(time: i64, origin: i64, length: u32) -> i64
    requires time { IsInstant time }
    requires origin { IsBetween (pos 0) (pos 978307200000) origin }
    requires length { 0 < length }
    ensures value { result ≡ int_rem_euclid (time -ℤ origin) (pos length) }
    ensures bound { IsBetween (pos 0) (pos 4294967295) result }
{
    let past = time - origin;
    // What most streams are truncated to stands as a constant, by which a division is a multiplication.
    match length {
        1_000 => past.rem_euclid(1_000),
        60_000 => past.rem_euclid(60_000),
        3_600_000 => past.rem_euclid(3_600_000),
        DAY => past.rem_euclid(DAY_MILLIS),
        _ => past.rem_euclid(i64::from(length)),
    }
}

/// The month in which a time lies; the months are numbered through from January of the year 0.
fn month_of(time: i64) -> u32
    requires { IsInstant time }
    ensures value { result ≡ month_of_time time }
    ensures bound { result < 120000 }
{
    month_of_day(time.div_euclid(DAY_MILLIS))
}

/// The first millisecond of a month up to January of the year 10000.
fn month_start(month: u32) -> i64
    requires { month ≤ 120000 }
    ensures { result ≡ start_of_month month }
{
    first_day_of_month(month) * DAY_MILLIS
}
