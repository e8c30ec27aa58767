ghost use Rattle.std.specs.Prelude.{◌≡◌, ◌<◌, ◌==◌, length, get_or, true, false, option_map, IsTrue};
ghost use Rattle.serde_json.specs.Read.{number_of, number_from, float_of};
ghost use Rattle.fast_float.specs.Text.{scan};
ghost use Rattle.dr_events.specs.Scalars.{data_of, whole_only};

use crate::scalar::Scalar;
use fast_float::Numeral;

/// The number that a numeral of JSON writes; none where it is out of the range of a float of 64 bits. A whole number that
/// fits neither 64 bits without a sign nor 64 bits with one isn't told from a fraction, nor is `-0`.
#[inline(always)]
pub fn number_in(numeral: &str) -> Option<Scalar<'_>>
    ensures { option_map data_of result ≡ option_map whole_only (number_of numeral.now) }
{
    let bytes = numeral.as_bytes();
    if has_minus(bytes) {
        negative(&bytes[1..])
    } else {
        unsigned(bytes)
    }
}

#[inline(always)]
fn has_minus(bytes: &[u8]) -> bool
    ensures value { result ≡ (get_or bytes.now 0 0 == 45) }
    ensures len { IsTrue result → 0 < length bytes.now }
{
    !bytes.is_empty() && bytes[0] == b'-'
}

#[inline(always)]
fn unsigned<'a>(numeral: &[u8]) -> Option<Scalar<'a>>
    ensures { option_map data_of result ≡ option_map whole_only (number_from false (scan numeral.now)) }
{
    match Numeral::scan(numeral).to_u64() {
        Some(number) => Some(Scalar::Whole(number)),
        None => fraction(false, numeral),
    }
}

#[inline(always)]
fn negative<'a>(numeral: &[u8]) -> Option<Scalar<'a>>
    ensures { option_map data_of result ≡ option_map whole_only (number_from true (scan numeral.now)) }
{
    if let Some(number) = Numeral::scan(numeral).to_i64(true) {
        if number < 0 {
            return Some(Scalar::Negative(number));
        }
    }
    fraction(true, numeral)
}

// A number that isn't told as a whole one.
#[inline(never)]
fn fraction<'a>(negative: bool, numeral: &[u8]) -> Option<Scalar<'a>>
    ensures { option_map data_of result ≡ option_map whole_only (float_of negative (scan numeral.now)) }
{
    let float: f64 = Numeral::scan(numeral).to_float(negative);
    if float.is_finite() {
        Some(Scalar::Other)
    } else {
        None
    }
}
