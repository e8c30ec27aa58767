ghost use Rattle.std.specs.Prelude.{◌≡◌, option_map};
ghost use Rattle.dr_events.specs.Scalars.{data_of};
ghost use Rattle.dr_events.specs.MetricInput.{text_input, number_input, input_by};

use crate::numbers::{signed_number, whole_number};
use crate::scalar::Scalar;
use dr_agg::Kind;

/// The input of a metric: 1 for a count, and for every other the number that the value of its field stands for; none where
/// that is bad.
pub fn metric_input(kind: Kind, value: Option<Scalar<'_>>) -> Option<i64>
    ensures { result ≡ input_by kind (option_map data_of value.entry) }
{
    match kind {
        Kind::Count => Some(1),
        Kind::LongSum | Kind::LongMin | Kind::LongMax => number_input(value),
    }
}

fn number_input(value: Option<Scalar<'_>>) -> Option<i64>
    ensures { result ≡ number_input (option_map data_of value.entry) }
{
    match value {
        None | Some(Scalar::Null) => Some(0),
        Some(Scalar::Whole(number)) => whole_number(number),
        Some(Scalar::Negative(number)) => Some(number),
        Some(Scalar::Text(text)) => text_input(text),
        Some(Scalar::Bool(_) | Scalar::Other) => None,
    }
}

fn text_input(text: &str) -> Option<i64>
    ensures { result ≡ text_input text.now }
{
    if text.is_empty() {
        return Some(0);
    }
    signed_number(text)
}
