ghost use Rattle.std.specs.Prelude.{◌≡◌};
ghost use Rattle.std.specs.List.{list_all};
ghost use Rattle.dr_dump.specs.Dump.{bytes_of, is_lower_digit, line_of};
ghost use Rattle.dr_dump.specs.Refusal.{Gives};

use crate::dump_error::DumpError;
use hex::FromHexError;
use std::alloc::Global;

/// A file without the newline that may end it.
pub(crate) fn line_of(file: &[u8]) -> &[u8]
    ensures { result.now ≡ line_of file.now }
{
    match file.strip_suffix(b"\n".as_slice()) {
        Some(line) => line,
        None => file,
    }
}

/// The bytes that pairs of lower-case hexadecimal digits spell. Refusals: 101 `BadCommand` for every other text.
#[tactic(auto, unfolding(crate::specs::Dump::bytes_of))]
pub(crate) fn bytes_of(alloc: Global, text: &[u8]) -> Result<Vec<u8>, DumpError>
    ensures { Gives (λ bytes. bytes.items) result (bytes_of text.now) }
{
    if !are_lower_digits(text) {
        return Err(DumpError::BadCommand);
    }
    match hex::decode(alloc, text) {
        Ok(bytes) => Ok(bytes),
        Err(FromHexError::OutOfMemory) => Err(DumpError::NoMemory),
        Err(_) => Err(DumpError::BadCommand),
    }
}

fn are_lower_digits(text: &[u8]) -> bool
    ensures { result ≡ list_all is_lower_digit text.now }
{
    text.iter().all(|&digit| is_lower_digit(digit))
}

fn is_lower_digit(digit: u8) -> bool
    ensures { result ≡ is_lower_digit digit }
{
    matches!(digit, b'0'..=b'9' | b'a'..=b'f')
}
