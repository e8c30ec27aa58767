ghost use Rattle.std.specs.Prelude.{◌≡◌, ◌<◌, false, ℕ, length, get_or};
ghost use Rattle.std.specs.Int.RustNames.{bit_and, bit_or, bit_xor};
ghost use Rattle.dr_rowindex.specs.Zeros.{AreZero};

// Keeps of each word the bits that the word at the same place among others has. Answers whether there may be any left.
pub fn keep_bits(words: &mut [u64], others: &[u64]) -> bool
    requires { length others.now ≡ length words.old }
    ensures count { length words.new ≡ length words.old }
    ensures each { (k : ℕ) → k < length words.old → get_or words.new k 0 ≡ bit_and (get_or words.old k 0) (get_or others.now k 0) }
    ensures left { result ≡ false → AreZero words.new }
{
    let mut left = 0;
    for k in 0..words.len() {
        words[k] &= others[k];
        left |= words[k];
    }
    left != 0
}

// Keeps of each word the bits that the words at the same place among four others have. Answers whether there may be any left.
pub fn keep_bits_of_four(words: &mut [u64], a: &[u64], b: &[u64], c: &[u64], d: &[u64]) -> bool
    requires a { length a.now ≡ length words.old }
    requires b { length b.now ≡ length words.old }
    requires c { length c.now ≡ length words.old }
    requires d { length d.now ≡ length words.old }
    ensures count { length words.new ≡ length words.old }
    ensures each { (k : ℕ) → k < length words.old → get_or words.new k 0 ≡ bit_and (bit_and (bit_and (bit_and (get_or words.old k 0) (get_or a.now k 0)) (get_or b.now k 0)) (get_or c.now k 0)) (get_or d.now k 0) }
    ensures left { result ≡ false → AreZero words.new }
{
    let mut left = 0;
    for k in 0..words.len() {
        words[k] = words[k] & a[k] & b[k] & c[k] & d[k];
        left |= words[k];
    }
    left != 0
}

// Adds to each word the bits that the word at the same place among others has.
pub fn add_bits(words: &mut [u64], others: &[u64])
    requires { length others.now ≡ length words.old }
    ensures count { length words.new ≡ length words.old }
    ensures each { (k : ℕ) → k < length words.old → get_or words.new k 0 ≡ bit_or (get_or words.old k 0) (get_or others.now k 0) }
{
    for k in 0..words.len() {
        words[k] |= others[k];
    }
}

// Adds to each word the bits that the words at the same place among three others all have. Answers whether there may be any now.
pub fn add_bits_of_three(words: &mut [u64], others: &[u64], a: &[u64], b: &[u64]) -> bool
    requires others { length others.now ≡ length words.old }
    requires a { length a.now ≡ length words.old }
    requires b { length b.now ≡ length words.old }
    ensures count { length words.new ≡ length words.old }
    ensures each { (k : ℕ) → k < length words.old → get_or words.new k 0 ≡ bit_or (get_or words.old k 0) (bit_and (bit_and (get_or others.now k 0) (get_or a.now k 0)) (get_or b.now k 0)) }
    ensures left { result ≡ false → AreZero words.new }
{
    let mut left = 0;
    for k in 0..words.len() {
        words[k] |= others[k] & a[k] & b[k];
        left |= words[k];
    }
    left != 0
}

// Adds to each word the bits that the words at the same place among five others all have. Answers whether there may be any now.
pub fn add_bits_of_five(
    words: &mut [u64],
    others: &[u64],
    a: &[u64],
    b: &[u64],
    c: &[u64],
    d: &[u64],
) -> bool
    requires others { length others.now ≡ length words.old }
    requires a { length a.now ≡ length words.old }
    requires b { length b.now ≡ length words.old }
    requires c { length c.now ≡ length words.old }
    requires d { length d.now ≡ length words.old }
    ensures count { length words.new ≡ length words.old }
    ensures each { (k : ℕ) → k < length words.old → get_or words.new k 0 ≡ bit_or (get_or words.old k 0) (bit_and (bit_and (bit_and (bit_and (get_or others.now k 0) (get_or a.now k 0)) (get_or b.now k 0)) (get_or c.now k 0)) (get_or d.now k 0)) }
    ensures left { result ≡ false → AreZero words.new }
{
    let mut left = 0;
    for k in 0..words.len() {
        words[k] |= others[k] & a[k] & b[k] & c[k] & d[k];
        left |= words[k];
    }
    left != 0
}

// Puts for each word the bits that the words at the same place among five others all have. Answers whether there may be any.
pub fn put_bits_of_five(
    words: &mut [u64],
    others: &[u64],
    a: &[u64],
    b: &[u64],
    c: &[u64],
    d: &[u64],
) -> bool
    requires others { length others.now ≡ length words.old }
    requires a { length a.now ≡ length words.old }
    requires b { length b.now ≡ length words.old }
    requires c { length c.now ≡ length words.old }
    requires d { length d.now ≡ length words.old }
    ensures count { length words.new ≡ length words.old }
    ensures each { (k : ℕ) → k < length words.old → get_or words.new k 0 ≡ bit_and (bit_and (bit_and (bit_and (get_or others.now k 0) (get_or a.now k 0)) (get_or b.now k 0)) (get_or c.now k 0)) (get_or d.now k 0) }
    ensures left { result ≡ false → AreZero words.new }
{
    let mut left = 0;
    for k in 0..words.len() {
        words[k] = others[k] & a[k] & b[k] & c[k] & d[k];
        left |= words[k];
    }
    left != 0
}

// Takes from each word the bits that the word at the same place among others has. Answers whether there may be any left.
pub fn drop_bits(words: &mut [u64], others: &[u64]) -> bool
    requires { length others.now ≡ length words.old }
    ensures count { length words.new ≡ length words.old }
    ensures each { (k : ℕ) → k < length words.old → get_or words.new k 0 ≡ bit_xor (get_or words.old k 0) (bit_and (get_or words.old k 0) (get_or others.now k 0)) }
    ensures left { result ≡ false → AreZero words.new }
{
    let mut left = 0;
    for k in 0..words.len() {
        words[k] ^= words[k] & others[k];
        left |= words[k];
    }
    left != 0
}
