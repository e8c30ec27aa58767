ghost use Rattle.serde_json.specs.View.{view};
ghost use Rattle.dr_base.specs.Fields.{Gives};
ghost use Rattle.dr_base.specs.Json.{json_of};

use crate::base_error::BaseError;
use serde_json::{Category, Value};
use std::alloc::Global;

/// The JSON value that the bytes spell (RFC 8259), as `serde_json` reads it: of a key that stands twice the last value
/// counts, and lists and objects nest 127 deep at most. Bytes that are no UTF-8 are no JSON.
/// Refusals: 1 `NotJson`. It takes time and memory by the bytes, and n log n for the members of one object.
#[tactic(auto, using(crate::proofs::JsonTexts::json_steps))]
pub fn parse_json(alloc: Global, bytes: &[u8]) -> Result<Value, BaseError>
    ensures { Gives view result (json_of bytes.now) }
{
    match Value::from_slice(alloc, bytes) {
        Ok(value) => Ok(value),
        Err(error) => match error.classify() {
            Category::Memory => Err(BaseError::NoMemory),
            _ => Err(BaseError::NotJson),
        },
    }
}
