ghost use Rattle.std.specs.Prelude.{◌≡◌, ◌≤◌, ◌<◌, ◌+◌, ◌-◌, ◌*◌, ◌/◌, ◌&&◌, ℕ, false, length, get_or, drop};
ghost use Rattle.dr_like.specs.Like.{letter_fits};
ghost use Rattle.dr_places.specs.Places.{AreStanding, HoldJust, begins, truth_in, fits_comb};

use crate::letter_places::LetterPlaces;
use crate::trying::are_few;
use crate::words::{is_empty, keep_bits, put_words};

// No letter of a piece of so many has another one that stands 64 behind it.
const ONE_COMB_EACH: usize = 64;

// By so many of its letters a piece is looked for first.
const FRONT: usize = 8;

// Makes a set of those of so many places of a text, the first of which is this one, at which a piece of a pattern stands. The places are
// left where each 64th letter of the piece fits, from its first one on, from its second one on, and so on. Where no place is left, no
// more is asked.
pub fn put_standing(
    places: &LetterPlaces,
    words: &mut [u64],
    comb: &mut [u64],
    piece: &[char],
    place: usize,
    count: usize,
)
    requires within { place + count + length piece.now ≤ length places.now + 1 }
    requires words { HoldJust count words.old }
    requires comb { length comb.old ≡ length words.old + 1 }
    ensures count { length words.new ≡ length words.old }
    ensures comb { length comb.new ≡ length comb.old }
    ensures each { AreStanding words.new count place piece.now places.now }
{
    if piece.len() <= ONE_COMB_EACH {
        put_each(places, words, piece, place, count);
        return;
    }
    put_words(words, 0, words.len(), u64::MAX);
    for first in 0..piece.len().min(64) {
        put_comb(places, words, comb, piece, first, place, count);
        if is_empty(words) {
            return;
        }
    }
}

// Makes a set of those of so many places of a text, the first of which is this one, at which the first letters of a piece of a pattern
// stand: so many that few places are left, or eight that are no `_`, or all. Answers how many characters of the piece these are.
pub fn put_front(
    places: &LetterPlaces,
    words: &mut [u64],
    piece: &[char],
    place: usize,
    count: usize,
) -> usize
    requires within { place + count + length piece.now ≤ length places.now + 1 }
    requires words { HoldJust count words.old }
    ensures count { length words.new ≡ length words.old }
    ensures whole { result ≡ length piece.now → AreStanding words.new count place piece.now places.now }
    ensures others { (k : ℕ) → k < count → truth_in words.new k ≡ false → begins piece.now (drop (place + k) places.now) ≡ false }
{
    put_words(words, 0, words.len(), u64::MAX);
    let mut asked = 0usize;
    for k in 0..piece.len() {
        prove!(piece.len() <= places.count());
        prove!(place + k < places.count());
        let all = words.len();
        put_letter(places, words, piece[k], place + k, all);
        if piece[k] != '_' {
            asked = asked.saturating_add(1);
            if asked == FRONT || are_few(words) {
                return k + 1;
            }
        }
    }
    piece.len()
}

// The same of all letters, one by one.
fn put_each(places: &LetterPlaces, words: &mut [u64], piece: &[char], place: usize, count: usize)
    requires within { place + count + length piece.now ≤ length places.now + 1 }
    requires words { HoldJust count words.old }
    ensures count { length words.new ≡ length words.old }
    ensures each { AreStanding words.new count place piece.now places.now }
{
    put_words(words, 0, words.len(), u64::MAX);
    for first in 0..piece.len() {
        prove!(piece.len() <= places.count());
        prove!(place + first < places.count());
        let end = words.len();
        put_letter(places, words, piece[first], place + first, end);
        if is_empty(words) {
            return;
        }
    }
}

// Leaves the places where each 64th letter of the piece fits, from one on. What these letters leave is told of all bits of the words of
// the text first, since all of them stand as far from the first bit of a word.
fn put_comb(
    places: &LetterPlaces,
    words: &mut [u64],
    comb: &mut [u64],
    piece: &[char],
    first: usize,
    place: usize,
    count: usize,
)
    requires first { first < length piece.now }
    requires within { place + count + length piece.now ≤ length places.now + 1 }
    requires words { HoldJust count words.old }
    requires comb { length comb.old ≡ length words.old + 1 }
    ensures count { length words.new ≡ length words.old }
    ensures comb { length comb.new ≡ length comb.old }
    ensures each { (k : ℕ) → k < count → truth_in words.new k ≡ (truth_in words.old k && fits_comb 63 first piece.now (drop (place + k) places.now)) }
{
    prove!(piece.len() <= places.count());
    prove!(place + first < places.count());
    let start = place + first;
    let bits = start % 64;
    let end = (bits + (count - 1)) / 64 + 1;
    put_words(comb, 0, comb.len(), u64::MAX);
    put_letters(places, comb, piece, first, start / 64, end);
    keep_bits(words, comb, bits, 0, words.len());
}

// Leaves the bits of the words of the text, from one on, from which on each 64th letter of the piece fits, from one on.
fn put_letters(
    places: &LetterPlaces,
    comb: &mut [u64],
    piece: &[char],
    first: usize,
    word: usize,
    end: usize,
)
    requires first { first < length piece.now }
    requires some { 0 < end }
    requires comb { end ≤ length comb.old }
    requires within { word + (length piece.now - 1 - first) / 64 + end ≤ length places.now / 64 + 1 }
    ensures count { length comb.new ≡ length comb.old }
    ensures each { (k : ℕ) → k / 64 < end → 64 * word + k + (length piece.now - first) ≤ length places.now → truth_in comb.new k ≡ (truth_in comb.old k && fits_comb 63 0 (drop first piece.now) (drop (64 * word + k) places.now)) }
{
    prove!(word <= places.count());
    let mut left = (piece.len() - 1 - first) / 64 + 1;
    while left > 0 {
        left -= 1;
        put_letter(
            places,
            comb,
            piece[first + 64 * left],
            64 * (word + left),
            end,
        );
    }
}

// Leaves the places, counted from lo on, where the text has a letter of a pattern that is no run.
fn put_letter(places: &LetterPlaces, words: &mut [u64], letter: char, lo: usize, end: usize)
    requires words { end ≤ length words.old }
    requires places { lo / 64 + end ≤ length places.now / 64 + 1 }
    ensures count { length words.new ≡ length words.old }
    ensures each { (k : ℕ) → k / 64 < end → lo + k < length places.now → truth_in words.new k ≡ (truth_in words.old k && letter_fits letter (get_or places.now (lo + k) 0)) }
{
    if letter == '_' {
        return;
    }
    places.keep(words, letter, lo, 0, end);
}
