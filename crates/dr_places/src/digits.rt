ghost use Rattle.std.specs.Prelude.{◌≡◌, ◌≤◌, ◌<◌, ◌&&◌, ◌+◌, ◌/◌, ◌%◌, ◌⊎◌, ℕ, true, false, length, get_or, eqb, replicate, IfOk};
ghost use Rattle.dr_places.specs.Places.{truth_in};
ghost use Rattle.dr_places.specs.Digits.{AreDigits, AreMarked, IsDigitOf};

use crate::letters::are_below;
use crate::place_set::PlaceSet;
use crate::words::{keep_bits, put_words};
use std::alloc::{AllocError, Global};

/// One digit of the number of each character of a text, the one of this divisor, which counts so many: the set of the places
/// where it is 0, that of those where it is 1, and so on; no sets where each number is below the divisor.
#[derive(Drop)]
pub struct Digits {
    pub divisor: usize,
    pub count: usize,
    pub sets: Vec<PlaceSet>,
}

impl Digits {
    pub fn of(
        alloc: Global,
        letters: &[char],
        divisor: usize,
        count: usize,
    ) -> Result<Digits, AllocError>
        requires divisor { 0 < divisor }
        requires count { 0 < count }
        ensures { IfOk result (λ d. IsDigitOf letters.now divisor count d.divisor d.count d.sets.items) }
    {
        let sets = digit_sets(alloc, letters, divisor, count)?;
        Ok(Digits {
            divisor,
            count,
            sets,
        })
    }

    // Keeps of some places, counted from lo on, in the words from one up to another, those where the digit is that of a letter.
    pub fn keep(
        &self,
        letters: &[char],
        words: &mut [u64],
        letter: char,
        lo: usize,
        from: usize,
        end: usize,
    )
        requires digits { AreDigits letters.now self.now.divisor self.now.count self.now.sets.items }
        requires divisor { 0 < self.now.divisor }
        requires count { 0 < self.now.count }
        requires order { from ≤ end }
        requires words { end ≤ length words.old }
        requires places { lo / 64 + end ≤ length letters.now / 64 + 1 }
        ensures count { length words.new ≡ length words.old }
        ensures each { (k : ℕ) → from ≤ k / 64 → k / 64 < end → lo + k < length letters.now → truth_in words.new k ≡ (truth_in words.old k && eqb (get_or letters.now (lo + k) 0 / self.now.divisor % self.now.count) (letter / self.now.divisor % self.now.count)) }
        ensures others { (k : ℕ) → (k < from) ⊎ (end ≤ k) → get_or words.new k 0 ≡ get_or words.old k 0 }
    {
        let digit = digit_of(letter, self.divisor, self.count);
        if !self.sets.is_empty() {
            let set = self.sets[digit].words();
            keep_bits(words, &set[lo / 64..], lo % 64, from, end);
            return;
        }
        if digit == 0 {
            return;
        }
        put_words(words, from, end, 0);
    }
}

// A digit of a letter. A division takes as long as most of what is done with a digit, so there is none where it tells nothing.
fn digit_of(letter: char, divisor: usize, count: usize) -> usize
    requires divisor { 0 < divisor }
    requires count { 0 < count }
    ensures { result ≡ letter / divisor % count }
{
    let number = letter as usize;
    if number < divisor {
        return 0;
    }
    if divisor == 1 && number < count {
        return number;
    }
    number / divisor % count
}

// The sets of the places for each digit.
fn digit_sets(
    alloc: Global,
    letters: &[char],
    divisor: usize,
    count: usize,
) -> Result<Vec<PlaceSet>, AllocError>
    requires divisor { 0 < divisor }
    requires count { 0 < count }
    ensures { IfOk result (λ s. AreDigits letters.now divisor count s.items) }
{
    if are_below(letters, divisor) {
        return Ok(Vec::new(alloc));
    }
    let mut sets = empty_sets(alloc, letters.len(), count)?;
    mark(sets.as_mut_slice(), letters, divisor, count);
    Ok(sets)
}

// So many sets of none of the places.
fn empty_sets(alloc: Global, places: usize, count: usize) -> Result<Vec<PlaceSet>, AllocError>
    ensures { IfOk result (λ s. s.items ≡ replicate count (replicate (places / 64 + 2) 0)) }
{
    let mut sets = Vec::new(alloc);
    for _ in 0..count {
        sets.push(PlaceSet::none(alloc, places)?)?;
    }
    Ok(sets)
}

// Puts each place into the set of its character's digit.
fn mark(sets: &mut [PlaceSet], letters: &[char], divisor: usize, count: usize)
    requires divisor { 0 < divisor }
    requires count { 0 < count }
    requires sets { AreMarked letters.now 0 divisor count sets.old }
    ensures { AreMarked letters.now (length letters.now) divisor count sets.new }
{
    for k in 0..letters.len() {
        sets[digit_of(letters[k], divisor, count)].insert(k);
    }
}
