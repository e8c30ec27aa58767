ghost use Rattle.std.specs.Prelude.{◌≡◌, ◌<◌, IfOk};
ghost use Rattle.dr_time.specs.Instant.{Reads};
ghost use Rattle.dr_time.specs.Digits.{one_digit as one_digit_of, two_digits as two_digits_of, four_digits as four_digits_of, digit_or_zero as digit_or_zero_of, behind_digits as behind_digits_of};

use crate::time_error::TimeError;

/// A digit at the front of a text, and the text behind it.
pub(crate) fn one_digit(text: &[u8]) -> Result<(u16, &[u8]), TimeError>
    ensures value { Reads (λ p. (p.0, p.1.now)) result (one_digit_of text.now) }
    ensures bound { IfOk result (λ p. p.0 < 10) }
{
    match text {
        [digit @ b'0'..=b'9', rest @ ..] => Ok((u16::from(*digit - b'0'), rest)),
        _ => Err(TimeError::BadInstant),
    }
}

/// The number of two digits, and the text behind them.
pub(crate) fn two_digits(text: &[u8]) -> Result<(u16, &[u8]), TimeError>
    ensures value { Reads (λ p. (p.0, p.1.now)) result (two_digits_of text.now) }
    ensures bound { IfOk result (λ p. p.0 < 100) }
{
    match text {
        [tens @ b'0'..=b'9', ones @ b'0'..=b'9', rest @ ..] => {
            Ok((u16::from(*tens - b'0') * 10 + u16::from(*ones - b'0'), rest))
        }
        _ => Err(TimeError::BadInstant),
    }
}

/// The number of four digits, and the text behind them.
#[tactic(auto, unfolding(crate::specs::Digits::four_digits))]
pub(crate) fn four_digits(text: &[u8]) -> Result<(u16, &[u8]), TimeError>
    ensures value { Reads (λ p. (p.0, p.1.now)) result (four_digits_of text.now) }
    ensures bound { IfOk result (λ p. p.0 < 10000) }
{
    let (high, rest) = two_digits(text)?;
    let (low, rest) = two_digits(rest)?;
    Ok((high * 100 + low, rest))
}

/// A digit at the front of a text and the text behind it, or 0 and the text.
pub(crate) fn digit_or_zero(text: &[u8]) -> (u16, &[u8])
    ensures value { (result.0, result.1.now) ≡ digit_or_zero_of text.now }
    ensures bound { result.0 < 10 }
{
    match text {
        [digit @ b'0'..=b'9', rest @ ..] => (u16::from(*digit - b'0'), rest),
        _ => (0, text),
    }
}

/// The text behind the digits at its front, of which at most so many are passed over.
#[tactic(auto, unfolding(crate::specs::Digits::behind_digits))]
pub(crate) fn behind_digits(most: u8, text: &[u8]) -> &[u8]
    ensures { result.now ≡ behind_digits_of most text.now }
{
    let mut rest = text;
    for _ in 0..most {
        rest = digit_or_zero(rest).1;
    }
    rest
}
