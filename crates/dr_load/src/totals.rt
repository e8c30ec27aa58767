ghost use Rattle.std.specs.Prelude.{◌≡◌};
ghost use Rattle.dr_load.specs.Totals.{counts_of};

use crate::failure::Failure;
use crate::ingested::Ingested;

/// How many lines of all files were no events and how many events weren't kept, or the refusal that ended the first of the
/// files that weren't read whole.
pub(crate) fn counts_of(told: Vec<Ingested>) -> Result<(u64, u64), Failure>
    ensures { result ≡ counts_of told.items }
{
    let mut unparseable = 0u64;
    let mut thrown_away = 0u64;
    for file in told {
        if let Some(refusal) = file.refusal {
            return Err(refusal);
        }
        unparseable = unparseable.saturating_add(file.tally.unparseable);
        thrown_away = thrown_away.saturating_add(file.tally.thrown_away);
    }
    Ok((unparseable, thrown_away))
}
