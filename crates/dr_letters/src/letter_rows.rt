ghost use Rattle.std.specs.Prelude.{◌≡◌, ◌<◌, ◌≤◌, ◌&&◌, true, false, ℕ, List, length, get_or, drop, map, IfOk, IfSome, OnOk};
ghost use Rattle.std.specs.List.{All};
ghost use Rattle.std.specs.Str.{chars};
ghost use Rattle.dr_like.specs.Like.{fits as fits_of, is_empty, first_and_rest, letter_fits};
ghost use Rattle.dr_rowindex.specs.Orders.{Tell};
ghost use Rattle.dr_letters.specs.Codes.{Keeps};
ghost use Rattle.dr_letters.specs.Pieces.{IsWithin, MeetsTwo, asks, asks_each};
ghost use Rattle.dr_letters.specs.Places.{ArePlaces};
ghost use Rattle.dr_letters.specs.States.{AreLong, is_short};

use crate::asked_letter::AskedLetter;
use crate::place_letters::PlaceLetters;
use crate::reading::{parted, places_of};
use dr_places::{LikePattern, OwnTexts, PatternShape};
use dr_rowindex::RowSet;
use std::alloc::{AllocError, Global};
use std::marker::Model;

/// Texts with their characters, place by place, so that a pattern of `like` is asked of all of them at once. A contract sees the texts,
/// and how many of their places are known.
#[derive(Drop)]
pub struct LetterRows<'a> {
    texts: OwnTexts<'a>,
    places: Vec<PlaceLetters>,
    // The texts that have no more characters.
    short: RowSet,
    // The others.
    long: Vec<usize>,
}

impl<'a> Model for LetterRows<'a> {
    ghost use Rattle.std.specs.Prelude.{◌≤◌, List, ℕ, length};
    ghost use Rattle.dr_rowindex.specs.Orders.{Tell};
    ghost use Rattle.dr_letters.specs.Places.{ArePlaces};
    ghost use Rattle.dr_letters.specs.States.{AreLong, is_short};

    ghost Value = { List (List ℕ) × ℕ };

    ghost view = { λ l. (l.texts, length l.places.items) };

    ghost invariant = { λ l. ArePlaces l.texts l.places.items × (Tell (is_short (length l.places.items)) l.texts l.short × (AreLong l.texts (length l.places.items) l.long.items × (length l.places.items ≤ 4096))) };
}

impl<'a> LetterRows<'a> {
    /// Texts, the first of which is that of row 0, with their characters, place by place, as far as one text in 256 has any there, 4,096
    /// places at most, and until these take so many bytes. The only error is that memory ran out. It takes n log n in the characters, and
    /// memory by four bytes for each of them, and by a bit for each text at each place for each character that one text in 64 has there, and
    /// for each of about twice the square root of the others, of which each takes some 24 bytes more. Of a text of 1,024 bytes or more, or of
    /// 64 where the square of their number is no more than twice their bytes, it is kept too where its letters stand, in the time and memory of
    /// [`LetterPlaces::of`](dr_places::LetterPlaces::of).
    pub fn of(alloc: Global, texts: Vec<&'a str>, most: usize) -> Result<LetterRows<'a>, AllocError>
        ensures { IfOk result (λ l. l.0 ≡ map (λ t. t.now) texts.entry.items) }
    {
        let texts = OwnTexts::of_texts(alloc, texts)?;
        let (places, rests) = places_of(alloc, texts.each_text(), most)?;
        let (long, short) = parted(alloc, texts.text_count(), rests.as_slice())?;
        Ok(LetterRows {
            texts,
            places,
            short,
            long,
        })
    }

    // How many texts there are.
    pub(crate) fn text_count(&self) -> usize
        ensures { result ≡ length self.now.0 }
    {
        self.texts.text_count()
    }

    // How many bytes what is known of the places takes, about: as if the others took as much as the one in the middle. It takes constant
    // time.
    pub(crate) fn bytes_known(&self) -> usize {
        match self.places.get(self.places.len() / 2) {
            Some(place) => place.size().saturating_mul(self.places.len()),
            None => 0,
        }
    }

    // Of how many places the characters are known.
    pub(crate) fn place_count(&self) -> usize
        ensures value { result ≡ self.now.1 }
        ensures few { result ≤ 4096 }
    {
        self.places.len()
    }

    // The texts that have a letter where it is asked, where these are kept.
    pub(crate) fn texts_at(&self, asked: &AskedLetter, spare: usize) -> Option<&RowSet>
        requires { IsWithin spare self.now.1 asked.now }
        ensures { IfSome result (λ s. Tell (asks spare asked.now) self.now.0 s.now) }
    {
        if asked.letter == '_' {
            return None;
        }
        let texts = self.places[asked.place - spare].texts_with(u32::from(asked.letter) + 1)?;
        Some(texts)
    }

    // Two sets, in both of which are just the texts that have a letter where it is asked, where these are kept.
    pub(crate) fn pair_at(&self, asked: &AskedLetter, spare: usize) -> Option<(&RowSet, &RowSet)>
        requires { IsWithin spare self.now.1 asked.now }
        ensures { IfSome result (λ r. MeetsTwo (asks spare asked.now) self.now.0 r.0.now r.1.now) }
    {
        if asked.letter == '_' {
            return None;
        }
        let sets = self.places[asked.place - spare].pair_with(u32::from(asked.letter) + 1)?;
        Some(sets)
    }

    // Whether a text has each of some letters of a pattern where it is asked. It takes time by the letters.
    pub(crate) fn has_each(&self, row: usize, letters: &[AskedLetter], spare: usize) -> bool
        requires row { row < length self.now.0 }
        requires places { All (λ a. IsWithin spare self.now.1 a) letters.now }
        ensures { (t : List ℕ) → result ≡ asks_each spare letters.now (get_or self.now.0 row t) }
    {
        stand_in(self.texts.letters_at(row), letters, spare)
    }

    // Whether any text may have each of some letters of a pattern where it is asked. It takes time by the letters.
    pub(crate) fn may_have_each(&self, letters: &[AskedLetter], spare: usize) -> bool
        requires { All (λ a. IsWithin spare self.now.1 a) letters.now }
        ensures { result ≡ false → (i : ℕ) (t : List ℕ) → i < length self.now.0 → asks_each spare letters.now (get_or self.now.0 i t) ≡ false }
    {
        for asked in letters {
            if !self.may_have(asked.place - spare, asked.letter) {
                return false;
            }
        }
        true
    }

    // Whether any text may have a character at a place that fits a letter of a pattern.
    pub(crate) fn may_have(&self, place: usize, letter: char) -> bool
        requires { place < self.now.1 }
        ensures { result ≡ false → (i : ℕ) (t : List ℕ) → i < length self.now.0 → first_and_rest (letter_fits letter) (λ more. true) (drop place (chars (get_or self.now.0 i t))) ≡ false }
    {
        letter == '_' || self.places[place].may_have(u32::from(letter) + 1)
    }

    // Keeps of some texts those that have a character at a place that fits a letter of a pattern.
    pub(crate) fn keep(&self, place: usize, letter: char, set: &mut RowSet)
        requires place { place < self.now.1 }
        requires rows { length set.old ≡ length self.now.0 }
        ensures { Keeps (λ t. first_and_rest (letter_fits letter) (λ more. true) (drop place (chars t))) self.now.0 set.old set.new }
    {
        if letter == '_' {
            self.places[place].keep_any(set);
        } else {
            self.places[place].keep(u32::from(letter) + 1, set);
        }
    }

    // The texts that have no more characters than there are places.
    pub(crate) fn short(&self) -> &RowSet
        ensures { Tell (is_short self.now.1) self.now.0 result.now }
    {
        &self.short
    }

    // The texts that have no more characters than there are places, and none from a place on.
    pub(crate) fn ended(&self, place: usize) -> &RowSet
        requires { place ≤ self.now.1 }
        ensures { Tell (λ t. is_short self.now.1 t && is_empty (drop place (chars t))) self.now.0 result.now }
    {
        if place < self.places.len() {
            return self.places[place].ended();
        }
        &self.short
    }

    // Those that fit a pattern, each of which is asked by itself.
    pub(crate) fn fitting_alone(&self, alloc: Global, pattern: &str) -> Result<RowSet, AllocError>
        ensures { IfOk result (λ s. Tell (λ t. fits_of (chars pattern.now) (chars t)) self.now.0 s) }
    {
        let set = fitting_of(alloc, pattern, &self.texts)?;
        Ok(set)
    }

    // How many words are gone through in about the time that this takes for a pattern of such a shape.
    pub(crate) fn words_alone(&self, shape: &PatternShape) -> usize {
        self.texts.words(shape)
    }

    // Adds those of the other texts that fit a pattern, each of which is asked by itself.
    pub(crate) fn insert_long(
        &self,
        alloc: Global,
        pattern: &str,
        set: &mut RowSet,
    ) -> Result<(), AllocError>
        requires { Tell (λ t. is_short self.now.1 t && fits_of (chars pattern.now) (chars t)) self.now.0 set.old }
        ensures { OnOk result (Tell (λ t. fits_of (chars pattern.now) (chars t)) self.now.0 set.new) }
    {
        let asked = LikePattern::of(alloc, pattern)?;
        for row in &self.long {
            if self.texts.fits(alloc, *row, &asked)? {
                set.insert(*row);
            }
        }
        Ok(())
    }
}

// Whether a text has each of some letters of a pattern where it is asked.
fn stand_in(own: &[char], letters: &[AskedLetter], spare: usize) -> bool
    requires { All (λ a. spare ≤ a.place) letters.now }
    ensures { (t : List ℕ) → own.now ≡ chars t → result ≡ asks_each spare letters.now t }
{
    for k in 0..letters.len() {
        let asked = &letters[k];
        if !stands_in(own, asked.place - spare, asked.letter) {
            return false;
        }
    }
    true
}

// Whether a text has a character at a place that fits a letter of a pattern.
fn stands_in(own: &[char], place: usize, letter: char) -> bool
    ensures { result ≡ first_and_rest (letter_fits letter) (λ more. true) (drop place own.now) }
{
    if place >= own.len() {
        return false;
    }
    letter == '_' || own[place] == letter
}

// Those of some texts that fit a pattern.
fn fitting_of(alloc: Global, pattern: &str, texts: &OwnTexts<'_>) -> Result<RowSet, AllocError>
    ensures { IfOk result (λ s. Tell (λ t. fits_of (chars pattern.now) (chars t)) texts.now s) }
{
    let asked = LikePattern::of(alloc, pattern)?;
    let mut set = RowSet::none(alloc, texts.text_count())?;
    for row in 0..texts.text_count() {
        if texts.fits(alloc, row, &asked)? {
            set.insert(row);
        }
    }
    Ok(set)
}
