ghost use Rattle.std.specs.Prelude.{◌≡◌, ◌≤◌, length};
ghost use Rattle.dr_image.specs.Layout.{header_of};

use crate::words::{word16, word32, word64};

/// The numbers in front of an image.
#[derive(Clone, Copy, Debug)]
pub struct Header {
    /// Whether events of equal truncated time and equal dimensions became one row.
    pub rollup: bool,
    /// The start of the chunk, in milliseconds since the epoch.
    pub chunk: i64,
    /// The number of the first event of the range, among those of the chunk.
    pub from: u64,
    /// The number behind the last one.
    pub to: u64,
    /// How many dimensions there are.
    pub dims: u16,
    /// How many metrics there are.
    pub metrics: u16,
    /// How many rows there are.
    pub rows: u32,
}

// The numbers in front of these bytes.
#[tactic(auto, unfolding(crate::specs::Layout::header_of, crate::specs::Words::word_at))]
pub(crate) fn read_header(bytes: &[u8]) -> Header
    requires { 48 ≤ length bytes.now }
    ensures { result ≡ header_of bytes.now }
{
    Header {
        rollup: word16(bytes, 6) == 1,
        chunk: word64(bytes, 16).cast_signed(),
        from: word64(bytes, 24),
        to: word64(bytes, 32),
        dims: word16(bytes, 40),
        metrics: word16(bytes, 42),
        rows: word32(bytes, 44),
    }
}
