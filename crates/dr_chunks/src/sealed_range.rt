ghost use Rattle.std.specs.Prelude.{◌≡◌};
ghost use Rattle.dr_chunks.specs.Held.{info_of};

use dr_cuts::RangeInfo;
use dr_fragment::SharedFragment;

/// A sealed range of a chunk: the number of seals and commits before it, its version, and its rows.
#[derive(Drop)]
pub struct SealedRange {
    pub serial: u64,
    pub version: u64,
    pub fragment: SharedFragment,
}

impl SealedRange {
    /// The range as a snapshot shows it.
    pub fn info(&self) -> RangeInfo
        ensures { result ≡ info_of self.now }
    {
        let (from, to) = self.fragment.range();
        RangeInfo {
            chunk: self.fragment.chunk(),
            from,
            to,
            version: self.version,
            rows: self.fragment.len(),
            sealed: true,
        }
    }
}
