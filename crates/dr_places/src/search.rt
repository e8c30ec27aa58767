ghost use Rattle.std.specs.Prelude.{◌≡◌, ◌≤◌, ◌<◌, ◌+◌, ◌/◌, ℕ, true, false, length, drop, MatchOption};
ghost use Rattle.dr_like.specs.Letters.{Lacks};
ghost use Rattle.dr_like.specs.Pieces.{IsNowhere, IsBehindFirst};
ghost use Rattle.dr_places.specs.Places.{begins, truth_in, HoldJust};

use crate::letter_places::LetterPlaces;
use crate::standing::{put_front, put_standing};
use crate::trying::{are_few, first_left, stands_at};
use dr_bits::{first_bit, is_set};

// Of how many places at once it is told first whether a piece stands there, and at most, so that the set stays in a processor's cache.
const FIRST_COUNT: usize = 64;

const MOST_COUNT: usize = 1 << 15;

// Whether a piece of a pattern stands at a place of a text, where so many characters are left.
pub fn stands(
    places: &LetterPlaces,
    words: &mut [u64],
    comb: &mut [u64],
    piece: &[char],
    place: usize,
) -> bool
    requires within { place + length piece.now ≤ length places.now }
    requires words { length words.old ≡ length places.now / 64 + 1 }
    requires comb { length comb.old ≡ length places.now / 64 + 2 }
    ensures count { length words.new ≡ length words.old }
    ensures comb { length comb.new ≡ length comb.old }
    ensures same { result ≡ begins piece.now (drop place places.now) }
{
    let words = &mut words[..1];
    put_standing(places, words, &mut comb[..2], piece, place, 1);
    is_set(words[0], 0)
}

// What follows the first place of a text, from one on, at which a piece of a pattern stands that a run follows; none where it
// stands nowhere. No later place is better.
pub fn behind_piece(
    places: &LetterPlaces,
    words: &mut [u64],
    comb: &mut [u64],
    piece: &[char],
    from: usize,
) -> Option<usize>
    requires lacks { Lacks 37 piece.now }
    requires from { from ≤ length places.now }
    requires words { length words.old ≡ length places.now / 64 + 1 }
    requires comb { length comb.old ≡ length places.now / 64 + 2 }
    ensures count { length words.new ≡ length words.old }
    ensures comb { length comb.new ≡ length comb.old }
    ensures found { MatchOption result (IsNowhere piece.now (drop from places.now)) (λ e. (e ≤ length places.now) × IsBehindFirst piece.now (drop from places.now) (drop e places.now)) }
{
    let count = piece.len();
    if count > places.count() - from {
        return None;
    }
    if count == 0 {
        return Some(from);
    }
    let end = places.count() - count + 1;
    let mut at = from;
    let mut most = FIRST_COUNT;
    while at < end {
        let some = most.min(end - at);
        if let Some(k) = first_standing(places, words, comb, piece, at, some) {
            return Some(at + k + count);
        }
        at += some;
        most = MOST_COUNT.min(most * 2);
    }
    None
}

// The first of so many places, from one on, at which a piece of a pattern stands, counted from that one. It is looked for by its first
// letters, and where few places are left then, by the others at these alone.
fn first_standing(
    places: &LetterPlaces,
    words: &mut [u64],
    comb: &mut [u64],
    piece: &[char],
    place: usize,
    count: usize,
) -> Option<usize>
    requires some { 0 < count }
    requires within { place + count + length piece.now ≤ length places.now + 1 }
    requires words { length words.old ≡ length places.now / 64 + 1 }
    requires comb { length comb.old ≡ length places.now / 64 + 2 }
    ensures count { length words.new ≡ length words.old }
    ensures comb { length comb.new ≡ length comb.old }
    ensures first { MatchOption result ((k : ℕ) → k < count → begins piece.now (drop (place + k) places.now) ≡ false) (λ b. (b < count) × (begins piece.now (drop (place + b) places.now) ≡ true) × ((k : ℕ) → k < b → begins piece.now (drop (place + k) places.now) ≡ false)) }
{
    let end = (count - 1) / 64 + 1;
    let words = &mut words[..end];
    if put_front(places, words, piece, place, count) == piece.len() {
        return first_bit(words, 0, count);
    }
    if are_few(words) {
        let k = first_left(places.letters(), words, piece, place, count);
        if k == count {
            return None;
        }
        if stands_at(places.letters(), piece, place + k) {
            return Some(k);
        }
    }
    put_standing(places, words, &mut comb[..end + 1], piece, place, count);
    first_bit(words, 0, count)
}
