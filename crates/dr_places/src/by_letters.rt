ghost use Rattle.std.specs.Prelude.{◌≡◌, ◌≤◌, ◌<◌, ◌+◌, ◌==◌, ◌&&◌, ◌∷◌, ◌++◌, ℕ, false, length, get_or, drop, MatchOption};
ghost use Rattle.dr_like.specs.Like.{fits, behind_some_run};
ghost use Rattle.dr_like.specs.Letters.{Lacks};
ghost use Rattle.dr_like.specs.Pieces.{IsNowhere, IsBehindFirst};
ghost use Rattle.dr_places.specs.Places.{begins};

use crate::trying::stands_at;

// Whether the whole text fits a pattern, as `fits` of `dr_like` tells it, letter by letter. It takes time by both, and at most by the letters
// of the text times those of the longest piece between two `%`.
pub fn fits_by_letters(pattern: &[char], text: &[char]) -> bool
    ensures { result ≡ fits pattern.now text.now }
{
    match split_at_run(pattern) {
        Some((start, more)) => fits_with_run(start, more, text),
        None => fits_whole(pattern, text),
    }
}

// Whether the whole text fits a pattern without a run.
fn fits_whole(pattern: &[char], text: &[char]) -> bool
    requires { Lacks 37 pattern.now }
    ensures { result ≡ fits pattern.now text.now }
{
    if pattern.len() != text.len() {
        return false;
    }
    stands_at(text, pattern, 0)
}

// Whether the whole text fits a start without a run, a run, and what follows it.
fn fits_with_run(start: &[char], more: &[char], text: &[char]) -> bool
    requires { Lacks 37 start.now }
    ensures { result ≡ fits (start.now ++ 37 ∷ more.now) text.now }
{
    if start.len() > text.len() {
        return false;
    }
    if !stands_at(text, start, 0) {
        return false;
    }
    fits_behind_run(more, text, start.len())
}

// Whether what is left of the text behind some run, from a place on, fits the pattern: each of its pieces is looked for behind the
// one before, and the last, which no run follows, at the end of the text.
fn fits_behind_run(pattern: &[char], text: &[char], from: usize) -> bool
    requires { from ≤ length text.now }
    ensures { result ≡ behind_some_run (fits pattern.now) (drop from text.now) }
{
    let mut left = pattern;
    let mut at = from;
    while let Some((piece, more)) = split_at_run(left) {
        let Some(behind) = behind_piece(text, piece, at) else {
            return false;
        };
        left = more;
        at = behind;
    }
    fits_end(left, text, at)
}

// Whether the end of the text, from a place on, fits a pattern without a run.
fn fits_end(pattern: &[char], text: &[char], from: usize) -> bool
    requires lacks { Lacks 37 pattern.now }
    requires from { from ≤ length text.now }
    ensures { result ≡ behind_some_run (fits pattern.now) (drop from text.now) }
{
    if pattern.len() > text.len() - from {
        return false;
    }
    stands_at(text, pattern, text.len() - pattern.len())
}

// What follows the first place of a text, from one on, at which a piece of a pattern stands that a run follows; none where it
// stands nowhere. No later place is better.
fn behind_piece(text: &[char], piece: &[char], from: usize) -> Option<usize>
    requires lacks { Lacks 37 piece.now }
    requires from { from ≤ length text.now }
    ensures { MatchOption result (IsNowhere piece.now (drop from text.now)) (λ e. (e ≤ length text.now) × IsBehindFirst piece.now (drop from text.now) (drop e text.now)) }
{
    let count = piece.len();
    if count > text.len() - from {
        return None;
    }
    if count == 0 {
        return Some(from);
    }
    let end = text.len() - count + 1;
    let mut at = from;
    while at < end {
        let next = next_begun(text, piece, at, end);
        if next == end {
            return None;
        }
        if stands_at(text, piece, next) {
            return Some(next + count);
        }
        at = next + 1;
    }
    None
}

// The first place of a text, from one on and before another one, at which a piece of a pattern may stand by its first letter, or by its
// first two; where there is none, that other one.
fn next_begun(text: &[char], piece: &[char], from: usize, end: usize) -> usize
    requires some { 0 < length piece.now }
    requires order { from ≤ end }
    requires within { end + length piece.now ≤ length text.now + 1 }
    ensures from { from ≤ result }
    ensures within { result ≤ end }
    ensures before { (k : ℕ) → from ≤ k → k < result → begins piece.now (drop k text.now) ≡ false }
{
    let first = piece[0];
    if first == '_' {
        return from;
    }
    if piece.len() == 1 {
        return next_letter(text, first, from, end);
    }
    let second = piece[1];
    if second == '_' {
        return next_letter(text, first, from, end);
    }
    next_letters(text, first, second, from, end)
}

// The first place of a text, from one on and before another one, that has a letter; where there is none, that other one.
fn next_letter(text: &[char], letter: char, from: usize, end: usize) -> usize
    requires order { from ≤ end }
    requires within { end ≤ length text.now }
    ensures from { from ≤ result }
    ensures within { result ≤ end }
    ensures before { (k : ℕ) → from ≤ k → k < result → (get_or text.now k 0 == letter) ≡ false }
{
    for at in from..end {
        if text[at] == letter {
            return at;
        }
    }
    end
}

// The first place of a text, from one on and before another one, that has a letter, and behind it another one; where there is none, that
// other place. Both are told without a branch, which would be taken as often as not where a text has letters of few kinds.
fn next_letters(text: &[char], first: char, second: char, from: usize, end: usize) -> usize
    requires order { from ≤ end }
    requires within { end < length text.now }
    ensures from { from ≤ result }
    ensures within { result ≤ end }
    ensures before { (k : ℕ) → from ≤ k → k < result → ((get_or text.now k 0 == first) && (get_or text.now (k + 1) 0 == second)) ≡ false }
{
    for at in from..end {
        if (text[at] == first) & (text[at + 1] == second) {
            return at;
        }
    }
    end
}

// What stands before the first run of a pattern, and what follows it; none where it has no run.
fn split_at_run(pattern: &[char]) -> Option<(&[char], &[char])>
    ensures { MatchOption result (Lacks 37 pattern.now) (λ p. Lacks 37 p.0.now × (pattern.now ≡ p.0.now ++ 37 ∷ p.1.now)) }
{
    for k in 0..pattern.len() {
        if pattern[k] == '%' {
            return Some((&pattern[..k], &pattern[k + 1..]));
        }
    }
    None
}
