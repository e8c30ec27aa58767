ghost use Rattle.std.specs.Prelude.{◌≡◌, ◌≤◌, ◌<◌, ◌+◌, ◌*◌, ℕ, false, length, drop};
ghost use Rattle.dr_places.specs.Places.{begins, truth_in};

use dr_bits::first_bit;

// Where the first letters of a piece stand at so many places at most, it is tried at each whether the others do.
const TRIES: usize = 4;

// Whether words have so few bits that each place is tried.
pub fn are_few(words: &[u64]) -> bool {
    let mut bits = 0usize;
    for word in words {
        bits = bits.saturating_add(word.count_ones() as usize);
        if bits > TRIES {
            return false;
        }
    }
    true
}

// Of so many places of a text, counted from one on, the first where it isn't known that a piece doesn't stand: the first of a set of those
// where it may stand at which it does, or the first of it behind those that are tried, and where there is none, how many places there are.
pub fn first_left(
    letters: &[char],
    words: &[u64],
    piece: &[char],
    place: usize,
    count: usize,
) -> usize
    requires within { place + count + length piece.now ≤ length letters.now + 1 }
    requires words { count ≤ 64 * length words.now }
    requires others { (k : ℕ) → k < count → truth_in words.now k ≡ false → begins piece.now (drop (place + k) letters.now) ≡ false }
    ensures within { result ≤ count }
    ensures before { (k : ℕ) → k < result → begins piece.now (drop (place + k) letters.now) ≡ false }
{
    let mut k = 0;
    let mut left = TRIES;
    while left > 0 {
        k = next_in(words, k, count);
        if k == count || stands_at(letters, piece, place + k) {
            return k;
        }
        k += 1;
        left -= 1;
    }
    next_in(words, k, count)
}

// The first place of a set from one on, of so many; where there is none, how many these are.
fn next_in(words: &[u64], from: usize, count: usize) -> usize
    requires from { from ≤ count }
    requires words { count ≤ 64 * length words.now }
    ensures within { result ≤ count }
    ensures before { (k : ℕ) → from ≤ k → k < result → truth_in words.now k ≡ false }
{
    match first_bit(words, from, count) {
        Some(k) => k,
        None => count,
    }
}

// Whether a piece of a pattern stands at a place of a text, letter by letter.
pub fn stands_at(letters: &[char], piece: &[char], place: usize) -> bool
    requires within { place + length piece.now ≤ length letters.now }
    ensures { result ≡ begins piece.now (drop place letters.now) }
{
    for k in 0..piece.len() {
        if piece[k] != '_' && letters[place + k] != piece[k] {
            return false;
        }
    }
    true
}
