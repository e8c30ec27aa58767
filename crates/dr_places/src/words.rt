ghost use Rattle.std.specs.Prelude.{◌≡◌, ◌<◌, ◌≤◌, ◌+◌, ◌⊎◌, ℕ, true, length, get_or};
ghost use Rattle.dr_places.specs.Places.{has_bit, bit_from, IsKept};

// Keeps of each word, from a place up to another, the bits that other words have, from a place in the first of these on.
pub fn keep_bits(words: &mut [u64], others: &[u64], bits: usize, from: usize, end: usize)
    requires bits { bits < 64 }
    requires order { from ≤ end }
    requires words { end ≤ length words.old }
    requires others { end < length others.now }
    ensures count { length words.new ≡ length words.old }
    ensures each { (k : ℕ) → from ≤ k → k < end → IsKept (get_or others.now k 0) (get_or others.now (k + 1) 0) bits (get_or words.old k 0) (get_or words.new k 0) }
    ensures others { (k : ℕ) → (k < from) ⊎ (end ≤ k) → get_or words.new k 0 ≡ get_or words.old k 0 }
{
    if bits == 0 {
        keep_words(words, others, from, end);
        return;
    }
    for k in from..end {
        words[k] &= word_from(others[k], others[k + 1], bits);
    }
}

// The same where the first bit is that of a word.
fn keep_words(words: &mut [u64], others: &[u64], from: usize, end: usize)
    requires order { from ≤ end }
    requires words { end ≤ length words.old }
    requires others { end < length others.now }
    ensures count { length words.new ≡ length words.old }
    ensures each { (k : ℕ) → from ≤ k → k < end → IsKept (get_or others.now k 0) (get_or others.now (k + 1) 0) 0 (get_or words.old k 0) (get_or words.new k 0) }
    ensures others { (k : ℕ) → (k < from) ⊎ (end ≤ k) → get_or words.new k 0 ≡ get_or words.old k 0 }
{
    for k in from..end {
        words[k] &= others[k];
    }
}

// The bits of a word from a place on, and behind them the first of the next one.
fn word_from(word: u64, next: u64, bits: usize) -> u64
    requires { bits < 64 }
    ensures { (k : ℕ) → k < 64 → has_bit result k ≡ bit_from word next bits k }
{
    (word >> bits) | ((next << 1) << (63 - bits))
}

// Makes each word from a place up to another the same.
pub fn put_words(words: &mut [u64], from: usize, end: usize, word: u64)
    requires order { from ≤ end }
    requires words { end ≤ length words.old }
    ensures count { length words.new ≡ length words.old }
    ensures each { (k : ℕ) → from ≤ k → k < end → get_or words.new k 0 ≡ word }
    ensures others { (k : ℕ) → (k < from) ⊎ (end ≤ k) → get_or words.new k 0 ≡ get_or words.old k 0 }
{
    for k in from..end {
        words[k] = word;
    }
}

// Whether no word has a bit.
pub fn is_empty(words: &[u64]) -> bool
    ensures { result ≡ true → (k : ℕ) → get_or words.now k 0 ≡ 0 }
{
    for k in 0..words.len() {
        if words[k] != 0 {
            return false;
        }
    }
    true
}
