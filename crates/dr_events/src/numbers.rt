ghost use Rattle.std.specs.Prelude.{◌≡◌, option_and_then, pos};
ghost use Rattle.dr_events.specs.WholeNumber.{in_64_bits, signed_number, plain_number};

/// The number, where it is below 2^63.
pub fn whole_number(number: u64) -> Option<i64>
    ensures { result ≡ in_64_bits (pos number) }
{
    if number <= i64::MAX as u64 {
        Some(number as i64)
    } else {
        None
    }
}

/// The number from -2^63 to 2^63 - 1 that an optional sign and digits spell.
pub fn signed_number(text: &str) -> Option<i64>
    ensures { result ≡ option_and_then in_64_bits (signed_number text.now) }
{
    text.parse().ok()
}

/// The same of an optional `-` and digits.
pub fn plain_number(text: &str) -> Option<i64>
    ensures { result ≡ option_and_then in_64_bits (plain_number text.now) }
{
    match text.as_bytes() {
        [] | [b'+', ..] => None,
        _ => signed_number(text),
    }
}
