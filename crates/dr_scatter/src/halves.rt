ghost use Rattle.std.specs.Prelude.{◌≡◌, ◌++◌, ◌<◌, length, IfOk};

use dr_partial::Partial;
use std::alloc::AllocError;

/// The first half of some partial results, rounded down, and the others. The only error is that memory ran out.
pub fn halves(parts: Vec<Partial>) -> Result<(Vec<Partial>, Vec<Partial>), AllocError>
    ensures parts { IfOk result (λ halves. halves.0.items ++ halves.1.items ≡ parts.items) }
    ensures shorter { IfOk result (λ halves. 1 < length parts.items → (length halves.0.items < length parts.items) × (length halves.1.items < length parts.items)) }
{
    let half = parts.len() / 2;
    let mut left = parts;
    let right = left.split_off(half)?;
    Ok((left, right))
}
