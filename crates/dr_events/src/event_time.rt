ghost use Rattle.std.specs.Prelude.{◌≡◌, ℤ, Option, option_map, option_and_then};
ghost use Rattle.std.specs.List.{list_all};
ghost use Rattle.std.specs.Char.{is_ascii_digit};
ghost use Rattle.dr_time.specs.Instant.{is_instant};
ghost use Rattle.dr_events.specs.WholeNumber.{in_64_bits};
ghost use Rattle.dr_events.specs.Scalars.{data_of};
ghost use Rattle.dr_base.specs.Fields.{present};
ghost use Rattle.dr_events.specs.EventTime.{whole_time, auto_time, auto_text, behind_minus, are_1_to_19_digits, of_seconds, in_years, time_of, event_time};

use crate::numbers::{plain_number, whole_number};
use crate::scalar::Scalar;
use crate::unparseable::Unparseable;
use dr_schema::TimeFormat;
use dr_time::{FIRST_INSTANT, LAST_INSTANT, parse_instant};

/// The time of an event in milliseconds since the epoch, by the value of its time column. Refusals: 31 `NoTimestamp` where
/// that is absent or null, 32 `BadTimestamp` where it is no time in that format or lies outside the years 1 to 9999.
pub fn event_time(format: TimeFormat, value: Option<Scalar<'_>>) -> Result<i64, Unparseable>
    ensures { result ≡ event_time format (present (option_map data_of value.entry)) }
{
    let value = match value {
        None | Some(Scalar::Null) => return Err(Unparseable::NoTimestamp),
        Some(value) => value,
    };
    match time_of(format, value) {
        Some(time) if is_in_years(time) => Ok(time),
        _ => Err(Unparseable::BadTimestamp),
    }
}

fn is_in_years(time: i64) -> bool
    ensures { result ≡ is_instant time }
{
    FIRST_INSTANT <= time && time <= LAST_INSTANT
}

// A number beyond 64 bits lies outside the years too.
fn time_of(format: TimeFormat, value: Scalar<'_>) -> Option<i64>
    ensures { option_and_then in_years result ≡ option_and_then in_years (time_of format (data_of value.entry)) }
{
    match format {
        TimeFormat::Iso => match value {
            Scalar::Text(text) => parse_instant(text).ok(),
            _ => None,
        },
        TimeFormat::Millis => whole_time(value),
        TimeFormat::Posix => posix_time(value),
        TimeFormat::Auto => auto_time(value),
    }
}

fn posix_time(value: Scalar<'_>) -> Option<i64>
    ensures { option_and_then in_years result ≡ option_and_then in_years (option_map of_seconds (whole_time (data_of value.entry))) }
{
    of_seconds(whole_time(value))
}

fn of_seconds(seconds: Option<i64>) -> Option<i64>
    ensures { (given : Option ℤ) → seconds ≡ option_and_then in_64_bits given → option_and_then in_years result ≡ option_and_then in_years (option_map of_seconds given) }
{
    match seconds {
        Some(seconds) => seconds.checked_mul(1000),
        None => None,
    }
}

fn whole_time(value: Scalar<'_>) -> Option<i64>
    ensures { result ≡ option_and_then in_64_bits (whole_time (data_of value.entry)) }
{
    match value {
        Scalar::Whole(number) => whole_number(number),
        Scalar::Negative(number) => Some(number),
        Scalar::Text(text) => plain_number(text),
        _ => None,
    }
}

fn auto_time(value: Scalar<'_>) -> Option<i64>
    ensures { option_and_then in_years result ≡ option_and_then in_years (auto_time (data_of value.entry)) }
{
    match value {
        Scalar::Whole(number) => whole_number(number),
        Scalar::Negative(number) => Some(number),
        Scalar::Text(text) => auto_text(text),
        _ => None,
    }
}

fn auto_text(text: &str) -> Option<i64>
    ensures { option_and_then in_years result ≡ option_and_then in_years (auto_text text.now) }
{
    if are_1_to_19_digits(behind_minus(text.as_bytes())) {
        plain_number(text)
    } else {
        parse_instant(text).ok()
    }
}

fn behind_minus(text: &[u8]) -> &[u8]
    ensures { result.now ≡ behind_minus text.now }
{
    match text {
        [b'-', rest @ ..] => rest,
        _ => text,
    }
}

fn are_1_to_19_digits(text: &[u8]) -> bool
    ensures { result ≡ are_1_to_19_digits text.now }
{
    1 <= text.len() && text.len() <= 19 && are_digits(text)
}

fn are_digits(text: &[u8]) -> bool
    ensures { result ≡ list_all is_ascii_digit text.now }
{
    text.iter().all(|byte| byte.is_ascii_digit())
}
