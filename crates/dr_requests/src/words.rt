ghost use Rattle.std.specs.Prelude.{◌≡◌, IfOk, option_copied};
ghost use Rattle.dr_time.specs.Instant.{IsInstant};
ghost use Rattle.dr_requests.specs.Request.{instant_in};
ghost use Rattle.std.specs.List.{list_all};
ghost use Rattle.std.specs.Char.{is_ascii_digit};
ghost use Rattle.dr_requests.specs.Request.{number_in, one_word, some_word, split_word, two_parts};
ghost use Rattle.dr_requests.specs.Refusal.{Gives};

use crate::command_error::CommandError;
use dr_time::{TimeError, parse_instant};
use std::str;

/// The bytes before the first space, and those behind it where there is one.
pub fn split_word(text: &[u8]) -> (&[u8], Option<&[u8]>)
    ensures word { result.0.now ≡ (split_word text.now).0 }
    ensures rest { option_copied result.1 ≡ (split_word text.now).1 }
{
    match text.iter().position(|&byte| byte == b' ') {
        Some(i) => (&text[..i], Some(&text[i + 1..])),
        None => (text, None),
    }
}

/// A word and what is behind the space that ends it. Refusals: 101 `BadCommand` where there is no space, or no byte
/// before it.
pub fn two_parts(text: &[u8]) -> Result<(&[u8], &[u8]), CommandError>
    ensures { Gives (λ parts. (parts.0.now, parts.1.now)) result (two_parts text.now) }
{
    match split_word(text) {
        (word, Some(rest)) => Ok((some_word(word)?, rest)),
        (_, None) => Err(CommandError::BadCommand),
    }
}

/// A text that is one word. Refusals: 101 `BadCommand` where it is empty or has a space.
pub fn one_word(text: &[u8]) -> Result<&[u8], CommandError>
    ensures { Gives (λ word. word.now) result (one_word text.now) }
{
    match split_word(text) {
        (word, None) => some_word(word),
        (_, Some(_)) => Err(CommandError::BadCommand),
    }
}

// A word that isn't empty.
fn some_word(word: &[u8]) -> Result<&[u8], CommandError>
    ensures { Gives (λ word. word.now) result (some_word word.now) }
{
    if word.is_empty() {
        return Err(CommandError::BadCommand);
    }
    Ok(word)
}

/// The number that decimal digits spell, leading zeros allowed. Refusals: 101 `BadCommand` where the word has no digit or
/// another byte, or where the number is over 2^64-1.
pub fn number_in(word: &[u8]) -> Result<u64, CommandError>
    ensures { Gives (λ number. number) result (number_in word.now) }
{
    if !are_digits(word) {
        return Err(CommandError::BadCommand);
    }
    match str::from_utf8(word) {
        Ok(digits) => match digits.parse() {
            Ok(number) => Ok(number),
            Err(_) => Err(CommandError::BadCommand),
        },
        Err(_) => Err(CommandError::BadCommand),
    }
}

fn are_digits(word: &[u8]) -> bool
    ensures { result ≡ list_all is_ascii_digit word.now }
{
    word.iter().all(|byte| byte.is_ascii_digit())
}

/// The instant that a word spells (ISO 8601), in milliseconds since the epoch. Refusals: 10 `BadInstant`, also for bytes
/// that aren't UTF-8, and 11 `OutOfRange`. It takes no memory, and time by the bytes.
pub fn instant_in(word: &[u8]) -> Result<i64, TimeError>
    ensures value { result ≡ instant_in word.now }
    ensures range { IfOk result IsInstant }
{
    match str::from_utf8(word) {
        Ok(text) => parse_instant(text),
        Err(_) => Err(TimeError::BadInstant),
    }
}
