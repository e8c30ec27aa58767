ghost use Rattle.std.specs.Prelude.{◌≡◌, ◌+◌, ◌*◌, ◌≤◌, length, drop};
ghost use Rattle.std.specs.Int.{w16, w32, w64};
ghost use Rattle.std.specs.Simd.{first_chunks};
ghost use Rattle.dr_image.specs.Words.{word_at, word, long};

// The number of two bytes at a place.
#[tactic(auto, unfolding(crate::specs::Words::word_at))]
pub(crate) fn word16(bytes: &[u8], at: usize) -> u16
    requires { at + 2 ≤ length bytes.now }
    ensures { result ≡ word_at w16 at bytes.now }
{
    let cell = &bytes[at..at + 2];
    u16::from_le_bytes([cell[0], cell[1]])
}

// The number of four bytes at a place.
#[tactic(auto, unfolding(crate::specs::Words::word_at))]
pub(crate) fn word32(bytes: &[u8], at: usize) -> u32
    requires { at + 4 ≤ length bytes.now }
    ensures { result ≡ word_at w32 at bytes.now }
{
    let cell = &bytes[at..at + 4];
    u32::from_le_bytes([cell[0], cell[1], cell[2], cell[3]])
}

// The number of eight bytes at a place.
#[tactic(auto, unfolding(crate::specs::Words::word_at))]
pub(crate) fn word64(bytes: &[u8], at: usize) -> u64
    requires { at + 8 ≤ length bytes.now }
    ensures { result ≡ word_at w64 at bytes.now }
{
    let cell = &bytes[at..at + 8];
    u64::from_le_bytes([
        cell[0], cell[1], cell[2], cell[3], cell[4], cell[5], cell[6], cell[7],
    ])
}

// So many numbers of four bytes from a place on, as they lie there.
pub(crate) fn cells4(bytes: &[u8], at: usize, count: usize) -> &[[u8; 4]]
    requires { at + 4 * count ≤ length bytes.now }
    ensures value { result.now ≡ first_chunks 4 count (drop at bytes.now) }
    ensures len { length result.now ≡ count }
{
    let (cells, _) = bytes[at..at + 4 * count].as_chunks::<4>();
    cells
}

// So many numbers of eight bytes from a place on, as they lie there.
pub(crate) fn cells8(bytes: &[u8], at: usize, count: usize) -> &[[u8; 8]]
    requires { at + 8 * count ≤ length bytes.now }
    ensures value { result.now ≡ first_chunks 8 count (drop at bytes.now) }
    ensures len { length result.now ≡ count }
{
    let (cells, _) = bytes[at..at + 8 * count].as_chunks::<8>();
    cells
}

// The number that four bytes are.
#[tactic(auto, unfolding(crate::specs::Words::word))]
pub(crate) fn number(cell: &[u8; 4]) -> usize
    ensures { result ≡ word cell.now }
{
    u32::from_le_bytes(*cell) as usize
}

// The number with a sign that eight bytes are.
#[tactic(auto, unfolding(crate::specs::Words::long))]
pub(crate) fn signed(cell: &[u8; 8]) -> i64
    ensures { result ≡ long cell.now }
{
    i64::from_le_bytes(*cell)
}
