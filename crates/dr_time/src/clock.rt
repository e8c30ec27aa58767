ghost use Rattle.std.specs.Prelude.{◌≡◌, ◌<◌, ◌≤ℤ◌, neg_ℤ, pos, IfOk};
ghost use Rattle.dr_time.specs.Instant.{Reads};
ghost use Rattle.dr_time.specs.Digits.{two_digits as two_digits_of, behind as behind_of};
ghost use Rattle.dr_time.specs.Clock.{colon, full_stop, minutes_at as minutes_at_of, minutes_of, fraction_of, seconds_at as seconds_at_of, seconds_of, shift_of, zone_of, clock_of, clock_behind as clock_behind_of};

use crate::digits::{behind_digits, digit_or_zero, one_digit, two_digits};
use crate::time_error::TimeError;

/// What stands behind a date: nothing, which is midnight in UTC, or `T` or one space and `HH[:MM[:SS[.digits]]]` with its zone.
/// Gives the milliseconds since midnight, and by how many milliseconds the clock is ahead of UTC.
#[tactic(auto, unfolding(crate::specs::Clock::clock_behind))]
pub(crate) fn clock_behind(text: &[u8]) -> Result<(u32, i64), TimeError>
    ensures value { result ≡ clock_behind_of text.now }
    ensures millis { IfOk result (λ p. p.0 < 86400000) }
    ensures low { IfOk result (λ p. neg_ℤ (pos 86400000) ≤ℤ p.1) }
    ensures high { IfOk result (λ p. p.1 ≤ℤ pos 86400000) }
{
    match text {
        [] => Ok((0, 0)),
        [b'T' | b' ', rest @ ..] => clock(rest),
        _ => Err(TimeError::BadInstant),
    }
}

#[tactic(auto, unfolding(crate::specs::Clock::clock_of))]
fn clock(text: &[u8]) -> Result<(u32, i64), TimeError>
    ensures value { result ≡ clock_of text.now }
    ensures millis { IfOk result (λ p. p.0 < 86400000) }
    ensures low { IfOk result (λ p. neg_ℤ (pos 86400000) ≤ℤ p.1) }
    ensures high { IfOk result (λ p. p.1 ≤ℤ pos 86400000) }
{
    let (minutes, rest) = minutes(text)?;
    let (seconds, rest) = seconds_behind(rest)?;
    let offset = zone(rest)?;
    Ok((minutes * 60_000 + seconds, offset))
}

/// `HH[:MM]`, in minutes, and the text behind.
#[tactic(auto, unfolding(crate::specs::Clock::minutes_of))]
fn minutes(text: &[u8]) -> Result<(u32, &[u8]), TimeError>
    ensures value { Reads (λ p. (p.0, p.1.now)) result (minutes_of text.now) }
    ensures bound { IfOk result (λ p. p.0 < 1440) }
{
    let (hour, rest) = two_digits(text)?;
    let (minute, rest) = minute_behind(rest)?;
    Ok((minutes_at(hour, minute)?, rest))
}

fn minute_behind(text: &[u8]) -> Result<(u16, &[u8]), TimeError>
    ensures { Reads (λ p. (p.0, p.1.now)) result (behind_of colon two_digits_of text.now) }
{
    match text {
        [b':', rest @ ..] => two_digits(rest),
        _ => Ok((0, text)),
    }
}

fn minutes_at(hour: u16, minute: u16) -> Result<u32, TimeError>
    ensures value { result ≡ minutes_at_of hour minute }
    ensures bound { IfOk result (λ n. n < 1440) }
{
    if hour >= 24 || minute >= 60 {
        return Err(TimeError::BadInstant);
    }
    Ok(u32::from(hour) * 60 + u32::from(minute))
}

/// `:SS[.digits]` in milliseconds, or nothing, and the text behind.
fn seconds_behind(text: &[u8]) -> Result<(u32, &[u8]), TimeError>
    ensures value { Reads (λ p. (p.0, p.1.now)) result (behind_of colon seconds_of text.now) }
    ensures bound { IfOk result (λ p. p.0 < 60000) }
{
    match text {
        [b':', rest @ ..] => seconds(rest),
        _ => Ok((0, text)),
    }
}

#[tactic(auto, unfolding(crate::specs::Clock::seconds_of))]
fn seconds(text: &[u8]) -> Result<(u32, &[u8]), TimeError>
    ensures value { Reads (λ p. (p.0, p.1.now)) result (seconds_of text.now) }
    ensures bound { IfOk result (λ p. p.0 < 60000) }
{
    let (second, rest) = two_digits(text)?;
    let (fraction, rest) = fraction_behind(rest)?;
    Ok((seconds_at(second, fraction)?, rest))
}

fn seconds_at(second: u16, millis: u16) -> Result<u32, TimeError>
    requires { millis < 1000 }
    ensures value { result ≡ seconds_at_of second millis }
    ensures bound { IfOk result (λ n. n < 60000) }
{
    if second >= 60 {
        return Err(TimeError::BadInstant);
    }
    Ok(u32::from(second) * 1000 + u32::from(millis))
}

/// `.` and 1 to 9 digits in milliseconds, or nothing, and the text behind.
fn fraction_behind(text: &[u8]) -> Result<(u16, &[u8]), TimeError>
    ensures value { Reads (λ p. (p.0, p.1.now)) result (behind_of full_stop fraction_of text.now) }
    ensures bound { IfOk result (λ p. p.0 < 1000) }
{
    match text {
        [b'.', rest @ ..] => fraction(rest),
        _ => Ok((0, text)),
    }
}

/// The digits below the millisecond are passed over.
#[tactic(auto, unfolding(crate::specs::Clock::fraction_of))]
fn fraction(text: &[u8]) -> Result<(u16, &[u8]), TimeError>
    ensures value { Reads (λ p. (p.0, p.1.now)) result (fraction_of text.now) }
    ensures bound { IfOk result (λ p. p.0 < 1000) }
{
    let (tenths, rest) = one_digit(text)?;
    let (hundredths, rest) = digit_or_zero(rest);
    let (thousandths, rest) = digit_or_zero(rest);
    Ok((
        tenths * 100 + hundredths * 10 + thousandths,
        behind_digits(6, rest),
    ))
}

/// `Z`, `+HH[:MM]`, `-HH[:MM]` or nothing: by how many milliseconds the clock is ahead of UTC.
#[tactic(auto, unfolding(crate::specs::Clock::zone_of))]
fn zone(text: &[u8]) -> Result<i64, TimeError>
    ensures value { result ≡ zone_of text.now }
    ensures low { IfOk result (λ z. neg_ℤ (pos 86400000) ≤ℤ z) }
    ensures high { IfOk result (λ z. z ≤ℤ pos 86400000) }
{
    match text {
        [] | [b'Z'] => Ok(0),
        [b'+', rest @ ..] => Ok(i64::from(shift(rest)?)),
        [b'-', rest @ ..] => Ok(-i64::from(shift(rest)?)),
        _ => Err(TimeError::BadInstant),
    }
}

#[tactic(auto, unfolding(crate::specs::Clock::shift_of))]
fn shift(text: &[u8]) -> Result<u32, TimeError>
    ensures value { result ≡ shift_of text.now }
    ensures bound { IfOk result (λ n. n < 86400000) }
{
    match minutes(text)? {
        (minutes, []) => Ok(minutes * 60_000),
        _ => Err(TimeError::BadInstant),
    }
}
