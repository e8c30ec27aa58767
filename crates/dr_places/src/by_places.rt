ghost use Rattle.std.specs.Prelude.{◌≡◌, ◌≤◌, ◌+◌, ◌/◌, ◌++◌, ◌∷◌, length, drop, IfOk};
ghost use Rattle.std.specs.Str.{chars};
ghost use Rattle.dr_like.specs.Like.{fits, behind_some_run};
ghost use Rattle.dr_like.specs.Letters.{Lacks};

use crate::letter_places::LetterPlaces;
use crate::letters::put_letters_of;
use crate::search::{behind_piece, stands};
use dr_like::split_at_letter;
use std::alloc::{AllocError, Global};

/// Whether the whole text fits a pattern (Apache Druid documentation, query filters: like): `%` is any run of characters,
/// `_` is one Unicode scalar value, every other character is itself. The only error is that memory ran out.
///
/// It takes the time and memory of [`LetterPlaces::of`] and of [`LetterPlaces::fits`]; no memory where the pattern has no `%`, and time by
/// the bytes of both.
pub fn fits_by_places(alloc: Global, pattern: &str, text: &str) -> Result<bool, AllocError>
    ensures { IfOk result (λ found. found ≡ fits (chars pattern.now) (chars text.now)) }
{
    let Some(_) = split_at_letter(pattern, '%') else {
        return Ok(dr_like::fits(pattern, text));
    };
    let places = LetterPlaces::of(alloc, text)?;
    let found = places.fits(alloc, pattern)?;
    Ok(found)
}

impl LetterPlaces {
    /// Whether the whole text fits a pattern, as [`fits_by_places`] tells it. The only error is that memory ran out.
    ///
    /// It takes four bytes of memory for each letter of the longest piece between two `%`, and a bit or two for each character of the text.
    /// Its time is that of the bytes of the pattern, and for each letter of a piece that is no `_` that of the characters among which the
    /// piece is looked for, 64 of them at once: 64 at first, then twice as many, up to 32,768, until it is found, and no more once no place
    /// is left; twice to four times that where a character of the text has a number of 128 or more. Where its first letters, eight of them at
    /// most, leave four places or fewer, it is compared with the characters there one by one; where they leave more, they are asked once more.
    pub fn fits(&self, alloc: Global, pattern: &str) -> Result<bool, AllocError>
        ensures { IfOk result (λ found. found ≡ fits (chars pattern.now) self.now) }
    {
        let mut words = vec![in alloc; 0; self.count() / 64 + 1]?;
        let mut comb = vec![in alloc; 0; self.count() / 64 + 2]?;
        let mut letters = Vec::new(alloc);
        let found = match split_at_letter(pattern, '%') {
            Some((start, more)) => fits_with_run(
                self,
                words.as_mut_slice(),
                comb.as_mut_slice(),
                &mut letters,
                start,
                more,
            )?,
            None => fits_whole(
                self,
                words.as_mut_slice(),
                comb.as_mut_slice(),
                &mut letters,
                pattern,
            )?,
        };
        Ok(found)
    }
}

// Whether the whole text fits a pattern without a run.
fn fits_whole(
    places: &LetterPlaces,
    words: &mut [u64],
    comb: &mut [u64],
    letters: &mut Vec<char>,
    pattern: &str,
) -> Result<bool, AllocError>
    requires lacks { Lacks 37 (chars pattern.now) }
    requires words { length words.old ≡ length places.now / 64 + 1 }
    requires comb { length comb.old ≡ length places.now / 64 + 2 }
    ensures { IfOk result (λ found. found ≡ fits (chars pattern.now) places.now) }
{
    put_letters_of(letters, pattern)?;
    if letters.len() != places.count() {
        return Ok(false);
    }
    Ok(stands(places, words, comb, letters.as_slice(), 0))
}

// Whether the whole text fits a start without a run, a run, and what follows it.
fn fits_with_run(
    places: &LetterPlaces,
    words: &mut [u64],
    comb: &mut [u64],
    letters: &mut Vec<char>,
    start: &str,
    more: &str,
) -> Result<bool, AllocError>
    requires lacks { Lacks 37 (chars start.now) }
    requires words { length words.old ≡ length places.now / 64 + 1 }
    requires comb { length comb.old ≡ length places.now / 64 + 2 }
    ensures { IfOk result (λ found. found ≡ fits (chars start.now ++ 37 ∷ chars more.now) places.now) }
{
    put_letters_of(letters, start)?;
    let count = letters.len();
    if count > places.count() {
        return Ok(false);
    }
    if !stands(places, words, comb, letters.as_slice(), 0) {
        return Ok(false);
    }
    let found = fits_behind_run(places, words, comb, letters, more, count)?;
    Ok(found)
}

// Whether what is left of the text behind some run, from a place on, fits the pattern: each of its pieces is looked for behind the
// one before, and the last, which no run follows, at the end of the text.
fn fits_behind_run(
    places: &LetterPlaces,
    words: &mut [u64],
    comb: &mut [u64],
    letters: &mut Vec<char>,
    pattern: &str,
    from: usize,
) -> Result<bool, AllocError>
    requires from { from ≤ length places.now }
    requires words { length words.old ≡ length places.now / 64 + 1 }
    requires comb { length comb.old ≡ length places.now / 64 + 2 }
    ensures { IfOk result (λ found. found ≡ behind_some_run (fits (chars pattern.now)) (drop from places.now)) }
{
    let mut left = pattern;
    let mut at = from;
    while let Some((piece, more)) = split_at_letter(left, '%') {
        put_letters_of(letters, piece)?;
        let Some(behind) = behind_piece(places, words, comb, letters.as_slice(), at) else {
            return Ok(false);
        };
        left = more;
        at = behind;
    }
    let found = fits_end(places, words, comb, letters, left, at)?;
    Ok(found)
}

// Whether the end of the text, from a place on, fits a pattern without a run.
fn fits_end(
    places: &LetterPlaces,
    words: &mut [u64],
    comb: &mut [u64],
    letters: &mut Vec<char>,
    pattern: &str,
    from: usize,
) -> Result<bool, AllocError>
    requires lacks { Lacks 37 (chars pattern.now) }
    requires from { from ≤ length places.now }
    requires words { length words.old ≡ length places.now / 64 + 1 }
    requires comb { length comb.old ≡ length places.now / 64 + 2 }
    ensures { IfOk result (λ found. found ≡ behind_some_run (fits (chars pattern.now)) (drop from places.now)) }
{
    put_letters_of(letters, pattern)?;
    if letters.len() > places.count() - from {
        return Ok(false);
    }
    let place = places.count() - letters.len();
    Ok(stands(places, words, comb, letters.as_slice(), place))
}
