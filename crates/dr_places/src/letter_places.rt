ghost use Rattle.std.specs.Prelude.{◌≡◌, ◌==◌, ◌≤◌, ◌<◌, ◌&&◌, ◌+◌, ◌/◌, ℕ, length, get_or, IfOk};
ghost use Rattle.std.specs.Str.{chars};
ghost use Rattle.dr_places.specs.Places.{truth_in};

use crate::digits::Digits;
use crate::letters::letters_of;
use std::alloc::{AllocError, Global};
use std::marker::Model;

/// The characters of a text, and the sets of the places where each digit of their numbers is this or that: the lowest digit
/// counts 128, the next two 32 each, the highest 16. The places of a letter are those that have each of its digits. A contract
/// sees the characters.
///
/// It takes up to 36 bytes of memory for each character of the text, 20 where each has a number below 128, and a few thousand besides.
#[derive(Drop)]
pub struct LetterPlaces {
    letters: Vec<char>,
    lowest: Digits,
    second: Digits,
    third: Digits,
    highest: Digits,
}

impl Model for LetterPlaces {
    ghost use Rattle.std.specs.Prelude.{List, ℕ};
    ghost use Rattle.dr_places.specs.Digits.{IsDigitOf, AreCharacters};

    ghost Value = { List ℕ };

    ghost view = { λ p. p.letters.items };

    ghost invariant = { λ p. AreCharacters p.letters.items × IsDigitOf p.letters.items 1 128 p.lowest.divisor p.lowest.count p.lowest.sets.items × IsDigitOf p.letters.items 128 32 p.second.divisor p.second.count p.second.sets.items × IsDigitOf p.letters.items 4096 32 p.third.divisor p.third.count p.third.sets.items × IsDigitOf p.letters.items 131072 16 p.highest.divisor p.highest.count p.highest.sets.items };
}

impl LetterPlaces {
    /// The places of a text. The only error is that memory ran out. It takes time by the bytes of the text.
    pub fn of(alloc: Global, text: &str) -> Result<LetterPlaces, AllocError>
        ensures { IfOk result (λ p. p ≡ chars text.now) }
    {
        let letters = letters_of(alloc, text)?;
        let lowest = Digits::of(alloc, letters.as_slice(), 1, 128)?;
        let second = Digits::of(alloc, letters.as_slice(), 128, 32)?;
        let third = Digits::of(alloc, letters.as_slice(), 4096, 32)?;
        let highest = Digits::of(alloc, letters.as_slice(), 131072, 16)?;
        Ok(LetterPlaces {
            letters,
            lowest,
            second,
            third,
            highest,
        })
    }

    // How many characters the text has.
    pub(crate) fn count(&self) -> usize
        ensures { result ≡ length self.now }
    {
        self.letters.len()
    }

    // The characters of the text.
    pub(crate) fn letters(&self) -> &[char]
        ensures { result.now ≡ self.now }
    {
        self.letters.as_slice()
    }

    // Keeps of some places, counted from lo on, in the words from one up to another, those where the text has a letter.
    pub(crate) fn keep(&self, words: &mut [u64], letter: char, lo: usize, from: usize, end: usize)
        requires order { from ≤ end }
        requires words { end ≤ length words.old }
        requires places { lo / 64 + end ≤ length self.now / 64 + 1 }
        ensures count { length words.new ≡ length words.old }
        ensures each { (k : ℕ) → from ≤ k / 64 → k / 64 < end → lo + k < length self.now → truth_in words.new k ≡ (truth_in words.old k && (get_or self.now (lo + k) 0 == letter)) }
    {
        let letters = self.letters.as_slice();
        self.lowest.keep(letters, words, letter, lo, from, end);
        self.second.keep(letters, words, letter, lo, from, end);
        self.third.keep(letters, words, letter, lo, from, end);
        self.highest.keep(letters, words, letter, lo, from, end);
    }
}
