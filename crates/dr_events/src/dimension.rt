ghost use Rattle.std.specs.Prelude.{◌≡◌, IfOk, option_map};
ghost use Rattle.dr_events.specs.Scalars.{data_of};
ghost use Rattle.dr_events.specs.DimensionValue.{dimension_value};

use crate::scalar::Scalar;
use dr_base::Text;
use itoa::Buffer;
use std::alloc::{AllocError, Global};

/// The text that the value of a dimension's field stands for: a text itself, a whole number in decimal, `true` and `false`,
/// and the empty text for a field that is missing or null; none for every other value. It takes memory for a text of more
/// than 14 bytes alone.
pub fn dimension_value(alloc: Global, value: Option<Scalar<'_>>) -> Result<Option<Text>, AllocError>
    ensures { IfOk result (λ text. text ≡ dimension_value (option_map data_of value.entry)) }
{
    let text = match value {
        None | Some(Scalar::Null) => Text::from_str(alloc, "")?,
        Some(Scalar::Bool(true)) => Text::from_str(alloc, "true")?,
        Some(Scalar::Bool(false)) => Text::from_str(alloc, "false")?,
        Some(Scalar::Text(text)) => Text::from_str(alloc, text)?,
        Some(Scalar::Whole(number)) => Text::from_str(alloc, Buffer::new().format(number))?,
        Some(Scalar::Negative(number)) => Text::from_str(alloc, Buffer::new().format(number))?,
        Some(Scalar::Other) => return Ok(None),
    };
    Ok(Some(text))
}
