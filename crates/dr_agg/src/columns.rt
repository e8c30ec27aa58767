ghost use Rattle.std.specs.Prelude.{◌≡◌, ◌++◌, ◌-◌, pos, IsOk, OnOk, OnErr, length, take, replicate};
ghost use Rattle.dr_agg.specs.Combination.{combine_columns, FitsColumns};

use crate::kind::Kind;
use dr_base::Numbers;
use std::alloc::AllocError;

/// Combines the metrics of one row with those of another, column by column, each by its kind. A value that isn't there reads
/// 0, and one past the columns is dropped. An error leaves the metrics as they were; the only one is that memory ran out,
/// which metrics with a value for each column don't take. It takes time by the columns.
pub fn combine_into(kinds: &[Kind], into: &mut Numbers, from: &Numbers) -> Result<(), AllocError>
    ensures ok { OnOk result (into.new ≡ combine_columns kinds.now into.old from.now) }
    ensures err { OnErr result (into.new ≡ into.old) }
    ensures succeeds { FitsColumns kinds.now into.old → IsOk result }
{
    fit(kinds.len(), into)?;
    for (place, kind) in kinds.iter().enumerate() {
        let value = from.get(place).unwrap_or(0);
        let combined = kind.combine(into.as_slice()[place], value);
        into.set(place, combined);
    }
    Ok(())
}

// Cuts values to so many, or fills them up with zeros.
fn fit(count: usize, values: &mut Numbers) -> Result<(), AllocError>
    ensures ok { OnOk result (values.new ≡ take count values.old ++ replicate (count - length values.old) (pos 0)) }
    ensures err { OnErr result (values.new ≡ values.old) }
    ensures succeeds { length values.old ≡ count → IsOk result }
{
    if values.len() == count {
        return Ok(());
    }
    let mut fitted = values.copy()?.into_vec();
    fitted.resize(count, 0)?;
    *values = Numbers::from_vec(fitted);
    Ok(())
}
