ghost use Rattle.std.specs.Prelude.{◌≡◌, ◌<◌, [], get_or, length, map, IfOk, IfSome};
ghost use Rattle.std.specs.Str.{chars};
ghost use Rattle.dr_like.specs.Like.{fits};
ghost use Rattle.dr_places.specs.Texts.{AreKnown, AreSpelled};

use crate::by_letters::fits_by_letters;
use crate::choosing::fits_soonest;
use crate::letter_places::LetterPlaces;
use crate::letters::letters_of;
use crate::like_pattern::LikePattern;
use crate::pattern_shape::PatternShape;
use std::alloc::{AllocError, Global};
use std::marker::Model;

// The places of the letters are known of a text of so many bytes.
const LONG: usize = 1024;

// And of one of so many, where the texts are few.
const LONG_OF_FEW: usize = 64;

// How many words are gone through in the time in which a text is asked where its letters stand, a piece of a pattern is looked for there, and
// a letter of it more.
const WORDS_A_TEXT: usize = 600;

const WORDS_A_PIECE: usize = 64;

const WORDS_A_LETTER: usize = 5;

// And in the time in which a text, a piece and a character of the text are asked letter by letter.
const WORDS_A_TEXT_BY_LETTERS: usize = 40;

const WORDS_A_PIECE_BY_LETTERS: usize = 16;

const WORDS_A_CHARACTER_BY_LETTERS: usize = 4;

// And in the time in which a piece is looked for from character to character.
const WORDS_A_PIECE_ELSE: usize = 96;

// And in the time that a character of the text takes there, where there are gaps in the pieces, and where there are none.
const WORDS_A_CHARACTER: usize = 4;

const WORDS_A_CHARACTER_WITHOUT_GAPS: usize = 1;

/// Texts that are asked one by one, with their characters, and the places of the letters of those that are long. A contract sees the texts.
#[derive(Drop)]
pub struct OwnTexts<'a> {
    texts: Vec<&'a str>,
    letters: Vec<Vec<char>>,
    places: Vec<Option<LetterPlaces>>,
    // How many texts have places that are known, and their bytes.
    known: usize,
    known_bytes: usize,
    // The bytes of all texts.
    bytes: usize,
}

impl<'a> Model for OwnTexts<'a> {
    ghost use Rattle.std.specs.Prelude.{List, ℕ, map};
    ghost use Rattle.dr_places.specs.Texts.{AreKnown, AreSpelled};

    ghost Value = { List (List ℕ) };

    ghost view = { λ t. map (λ t. t.now) t.texts.items };

    ghost invariant = { λ t. AreSpelled (map (λ t. t.now) t.texts.items) t.letters.items × AreKnown (map (λ t. t.now) t.texts.items) t.places.items };
}

impl<'a> OwnTexts<'a> {
    /// Texts, the first of which is that of row 0. The only error is that memory ran out. It takes time by their bytes, and memory by
    /// four bytes for each character, and that of [`LetterPlaces`] for each of 1,024 bytes or more, and of 64 or more, where the square of
    /// their number is no more than twice their bytes.
    pub fn of_texts(alloc: Global, texts: Vec<&'a str>) -> Result<OwnTexts<'a>, AllocError>
        ensures { IfOk result (λ t. t ≡ map (λ t. t.now) texts.entry.items) }
    {
        let bytes = bytes_of(texts.as_slice(), 0);
        let least = least_of(texts.len(), bytes);
        let letters = letters_of_each(alloc, texts.as_slice())?;
        let places = places_of(alloc, texts.as_slice(), least)?;
        let known = count_of(texts.as_slice(), least);
        let known_bytes = bytes_of(texts.as_slice(), least);
        Ok(OwnTexts {
            texts,
            letters,
            places,
            known,
            known_bytes,
            bytes,
        })
    }

    /// The texts. It takes constant time.
    pub fn each_text(&self) -> &[&'a str]
        ensures { map (λ t. t.now) result.now ≡ self.now }
    {
        self.texts.as_slice()
    }

    /// How many texts there are. It takes constant time.
    pub fn text_count(&self) -> usize
        ensures { result ≡ length self.now }
    {
        self.texts.len()
    }

    /// The characters of the text of a row. It takes constant time.
    pub fn letters_at(&self, row: usize) -> &[char]
        requires { row < length self.now }
        ensures { result.now ≡ chars (get_or self.now row []) }
    {
        self.letters[row].as_slice()
    }

    /// Whether the text of a row fits a pattern of `like` (Apache Druid documentation, query filters: like). The only error is that memory
    /// ran out. Where the pieces of the pattern are short, and many beside the characters of the text, it takes time by both, and no memory;
    /// else what [`LetterPlaces::fits`] does, where that is sooner and it is kept where the letters stand, and what [`fits_soonest`] does
    /// where not.
    pub fn fits(
        &self,
        alloc: Global,
        row: usize,
        pattern: &LikePattern<'_>,
    ) -> Result<bool, AllocError>
        requires { row < length self.now }
        ensures { IfOk result (λ found. found ≡ fits pattern.now (chars (get_or self.now row []))) }
    {
        let letters = self.letters_at(row);
        if pattern
            .shape()
            .is_sooner_by_letters(letters.len(), self.bytes)
        {
            return Ok(fits_by_letters(pattern.letters(), letters));
        }
        let by_places = pattern.shape().is_sooner_by_places();
        match &self.places[row] {
            Some(places) if by_places => places.fits(alloc, pattern.text()),
            _ => fits_soonest(alloc, pattern.text(), self.texts[row]),
        }
    }

    /// How many words are gone through in about the time in which each text is asked for a pattern of such a shape. It takes constant time.
    pub fn words(&self, shape: &PatternShape) -> usize {
        let count = self.text_count();
        if shape.is_sooner_by_letters(self.bytes / count.max(1), self.bytes) {
            let a_text = shape
                .pieces
                .saturating_mul(WORDS_A_PIECE_BY_LETTERS)
                .saturating_add(WORDS_A_TEXT_BY_LETTERS);
            let letters = self.bytes.saturating_mul(WORDS_A_CHARACTER_BY_LETTERS);
            return count.saturating_mul(a_text).saturating_add(letters);
        }
        let (known, known_bytes) = if shape.is_sooner_by_places() {
            (self.known, self.known_bytes)
        } else {
            (0, 0)
        };
        let others = self.text_count().saturating_sub(known);
        let other_bytes = self.bytes.saturating_sub(known_bytes);
        let a_text = shape
            .pieces
            .saturating_mul(WORDS_A_PIECE)
            .saturating_add(shape.others().saturating_mul(WORDS_A_LETTER))
            .saturating_add(WORDS_A_TEXT);
        let by_places = (known_bytes / 64).saturating_mul(shape.others());
        let a_character = if shape.has_gaps {
            WORDS_A_CHARACTER
        } else {
            WORDS_A_CHARACTER_WITHOUT_GAPS
        };
        let pieces = others
            .saturating_mul(WORDS_A_PIECE_ELSE)
            .saturating_mul(shape.pieces);
        known
            .saturating_mul(a_text)
            .saturating_add(by_places)
            .saturating_add(pieces)
            .saturating_add(other_bytes.saturating_mul(a_character))
    }
}

// From how many bytes on a text is long, of so many texts of so many bytes.
fn least_of(texts: usize, bytes: usize) -> usize {
    if texts.saturating_mul(texts) / 2 <= bytes {
        LONG_OF_FEW
    } else {
        LONG
    }
}

// How many texts have so many bytes.
fn count_of(texts: &[&str], least: usize) -> usize {
    let mut count = 0usize;
    for text in texts {
        if text.len() >= least {
            count = count.saturating_add(1);
        }
    }
    count
}

// How many bytes the texts have that have so many.
fn bytes_of(texts: &[&str], least: usize) -> usize {
    let mut bytes = 0usize;
    for text in texts {
        if text.len() >= least {
            bytes = bytes.saturating_add(text.len());
        }
    }
    bytes
}

// The characters of each text.
fn letters_of_each(alloc: Global, texts: &[&str]) -> Result<Vec<Vec<char>>, AllocError>
    ensures { IfOk result (λ letters. AreSpelled (map (λ t. t.now) texts.now) letters.items) }
{
    let mut letters = Vec::with_capacity(alloc, texts.len())?;
    for row in 0..texts.len() {
        let own = letters_of(alloc, texts[row])?;
        letters.push(own)?;
    }
    Ok(letters)
}

// The places of the texts that have so many bytes.
fn places_of(
    alloc: Global,
    texts: &[&str],
    least: usize,
) -> Result<Vec<Option<LetterPlaces>>, AllocError>
    ensures { IfOk result (λ places. AreKnown (map (λ t. t.now) texts.now) places.items) }
{
    let mut places = Vec::with_capacity(alloc, texts.len())?;
    for row in 0..texts.len() {
        let own = places_if_long(alloc, texts[row], least)?;
        places.push(own)?;
    }
    Ok(places)
}

// The places of a text, where it has so many bytes.
fn places_if_long(
    alloc: Global,
    text: &str,
    least: usize,
) -> Result<Option<LetterPlaces>, AllocError>
    ensures { IfOk result (λ own. IfSome own (λ places. places ≡ chars text.now)) }
{
    if text.len() < least {
        return Ok(None);
    }
    let places = LetterPlaces::of(alloc, text)?;
    Ok(Some(places))
}
