ghost use Rattle.std.specs.Prelude.{◌≡◌, ◌<◌, map};
ghost use Rattle.dr_chunks.specs.Held.{range_of};
ghost use Rattle.dr_timeline.specs.Steps.{publications_after, version_for};

use crate::planned::least_version;
use dr_chunks::SealedRange;
use dr_merge::Purpose;

/// How many publications there are of a chunk once ranges of it became one for that purpose.
pub(crate) fn publications_after(purpose: Purpose, publications: u64) -> u64
    requires { publications < 18446744073709551615 }
    ensures { result ≡ publications_after purpose publications }
{
    match purpose {
        Purpose::Merge => publications,
        Purpose::Publish => publications + 1,
    }
}

/// The version of the range that ranges become, where there are so many publications then: that number, or the least version of
/// the ranges.
pub(crate) fn version_for(purpose: Purpose, publications: u64, ranges: &[SealedRange]) -> u64
    ensures { result ≡ version_for purpose publications (map range_of ranges.now) }
{
    match purpose {
        Purpose::Merge => least_version(ranges),
        Purpose::Publish => publications,
    }
}
