ghost use Rattle.std.specs.Prelude.{◌≡◌, ◌<◌, ◌≤◌, ◌*◌, ◌≢◌, ℕ, true, false, length, MatchOption};
ghost use Rattle.dr_bits.specs.Bits.{has_bit, truth_in};

/// Whether a word has the bit at a place. It takes constant time.
pub fn is_set(word: u64, k: usize) -> bool
    requires { k < 64 }
    ensures { result ≡ has_bit word k }
{
    (word >> k) & 1 == 1
}

/// A word with the bit at a place. It takes constant time.
pub fn with_bit(word: u64, k: usize) -> u64
    requires { k < 64 }
    ensures same { has_bit result k ≡ true }
    ensures others { (j : ℕ) → j ≢ k → has_bit result j ≡ has_bit word j }
{
    word | (1 << k)
}

/// The first place of some words, from one on, of so many, that has its bit. It takes time by the words before it.
pub fn first_bit(words: &[u64], from: usize, count: usize) -> Option<usize>
    requires { count ≤ 64 * length words.now }
    ensures { MatchOption result ((k : ℕ) → from ≤ k → k < count → truth_in words.now k ≡ false) (λ k. (from ≤ k) × (k < count) × (truth_in words.now k ≡ true) × ((j : ℕ) → from ≤ j → j < k → truth_in words.now j ≡ false)) }
{
    let mut k = from;
    while k < count {
        let left = words[k / 64] >> (k % 64);
        if left != 0 {
            let first = k.saturating_add(lowest_of(left));
            return if first < count { Some(first) } else { None };
        }
        k = k.saturating_add(64 - k % 64);
    }
    None
}

// The place of the lowest bit of a word that has one.
fn lowest_of(word: u64) -> usize
    requires { 0 < word }
    ensures same { has_bit word result ≡ true }
    ensures before { (k : ℕ) → k < result → has_bit word k ≡ false }
{
    word.trailing_zeros() as usize
}
