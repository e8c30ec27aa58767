ghost use Rattle.std.specs.Prelude.{◌≡◌, ◌<◌, ℕ, false, length, replicate, IfOk};
ghost use Rattle.std.specs.BTreeMap.{BTreeMap};
ghost use Rattle.std.specs.List.{All};
ghost use Rattle.dr_letters.specs.Ranks.{AreRanksOf, HoldDigits, digit};

use crate::text_letter::TextLetter;
use dr_rowindex::RowSet;
use std::alloc::{AllocError, Global};

// The greatest number that last digits are counted by, so that it is soon found.
const MOST_DIGITS: usize = 4096;

// What the last digits of so many ranks are counted by, so that there are about as many of these as of the first ones. It takes time by
// the square root of the ranks.
pub fn base_for(ranks: usize) -> usize
    ensures { 0 < result }
{
    for base in 1..MOST_DIGITS {
        if base * base >= ranks {
            return base;
        }
    }
    MOST_DIGITS
}

// Of each digit of the ranks of some letters, which texts have a letter whose rank has it.
pub fn digit_sets(
    alloc: Global,
    count: usize,
    letters: &[TextLetter],
    ranks: &[usize],
    most: usize,
    divisor: usize,
    base: usize,
) -> Result<Vec<RowSet>, AllocError>
    requires rows { All (λ l. l.row < count) letters.now }
    requires ranks { length ranks.now ≡ length letters.now }
    requires few { All (λ r. r < most) ranks.now }
    requires divisor { 0 < divisor }
    requires base { 0 < base }
    ensures rows { IfOk result (λ sets. All (λ s. length s ≡ count) sets.items) }
    ensures digits { IfOk result (λ sets. (r : ℕ) → r < most → digit divisor base r < length sets.items) }
    ensures told { IfOk result (λ sets. (of_codes : BTreeMap ℕ ℕ) → AreRanksOf of_codes letters.now ranks.now → HoldDigits count letters.now of_codes divisor base sets.items) }
{
    let mut sets = empty_sets(alloc, count, digit_count(most, divisor, base))?;
    for k in 0..letters.len() {
        sets[digit_of(ranks[k], divisor, base)].insert(letters[k].row);
    }
    Ok(sets)
}

// So many sets of none of the texts.
fn empty_sets(alloc: Global, count: usize, digits: usize) -> Result<Vec<RowSet>, AllocError>
    ensures { IfOk result (λ sets. sets.items ≡ replicate digits (replicate count false)) }
{
    let mut sets = Vec::with_capacity(alloc, digits)?;
    for _ in 0..digits {
        sets.push(RowSet::none(alloc, count)?)?;
    }
    Ok(sets)
}

// How many digits so many ranks have at a place.
fn digit_count(ranks: usize, divisor: usize, base: usize) -> usize
    requires divisor { 0 < divisor }
    requires base { 0 < base }
    ensures { (r : ℕ) → r < ranks → digit divisor base r < result }
{
    if ranks == 0 {
        return 0;
    }
    let greatest = (ranks - 1) / divisor;
    if greatest < base { greatest + 1 } else { base }
}

// The digit of a rank at a place.
pub fn digit_of(rank: usize, divisor: usize, base: usize) -> usize
    requires divisor { 0 < divisor }
    requires base { 0 < base }
    ensures { result ≡ digit divisor base rank }
{
    rank / divisor % base
}
