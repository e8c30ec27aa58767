use crate::letter_rows::LetterRows;
use dr_like::split_last;
use dr_places::PatternShape;

// How many words of sets are told of in the time that is lost for each set, and for each place where a pattern may stand.
const WORDS_A_SET: usize = 80;

const WORDS_A_PLACE: usize = 200;

// The first where the sets take more memory than the nearest caches hold, and how much that is.
const WORDS_A_FAR_SET: usize = 160;

const NEAR_BYTES: usize = 1 << 20;

// Of each place one letter of a piece is asked, and one in so many of the others.
const OTHERS: usize = 8;

// At so many of the places it is looked whether any text may have so many of the last letters of a pattern there.
const LOOKS: usize = 16;

const LAST: usize = 4;

impl<'a> LetterRows<'a> {
    // Whether each text is asked by itself for a start of so many letters, a run and what follows it sooner than all texts at once: that
    // takes time by the places where each piece may stand, and this by the texts. It takes time by what follows.
    pub(crate) fn are_sooner_alone(&self, start: usize, more: &str) -> bool {
        let shape = PatternShape::of_pattern(more);
        let spares = self
            .place_count()
            .saturating_sub(start)
            .saturating_sub(shape.letters)
            .saturating_add(1);
        let sets = shape.pieces.saturating_add(shape.others() / OTHERS);
        let alone = self.words_alone(&shape);
        let at_each = sets.saturating_mul(self.words_of_set());
        if alone >= words_at_once(spares, at_each) {
            return false;
        }
        let looks = self.looks_that_may_end(more, spares);
        alone < words_at_once(spares, at_each.saturating_mul(looks) / LOOKS)
    }

    // How many words are gone through in about the time that a set takes.
    fn words_of_set(&self) -> usize {
        let lost = if self.bytes_known() > NEAR_BYTES {
            WORDS_A_FAR_SET
        } else {
            WORDS_A_SET
        };
        (self.text_count() / 64).saturating_add(lost)
    }

    // At how many of those of so many places that are looked at any text may have the last letters of a pattern.
    fn looks_that_may_end(&self, pattern: &str, spares: usize) -> usize {
        let mut looks = 0usize;
        for look in 0..LOOKS {
            let spare = spares.saturating_mul(look) / LOOKS;
            if self.may_end(pattern, self.place_count().saturating_sub(spare)) {
                looks = looks.saturating_add(1);
            }
        }
        looks
    }

    // Whether any text may have the last letters of a pattern before a place. It takes time by the last piece.
    fn may_end(&self, pattern: &str, end: usize) -> bool {
        let mut left = pattern;
        let mut place = end;
        let mut asked = 0usize;
        while let Some((more, letter)) = split_last(left) {
            left = more;
            if letter == '%' {
                if place < end {
                    return true;
                }
            } else {
                place = place.saturating_sub(1);
                if letter != '_' {
                    if place >= self.place_count() || !self.may_have(place, letter) {
                        return false;
                    }
                    asked = asked.saturating_add(1);
                }
                if asked == LAST {
                    return true;
                }
            }
        }
        true
    }
}

// How many words are gone through in about the time in which so many places take so many each.
fn words_at_once(places: usize, words: usize) -> usize {
    places.saturating_mul(words.saturating_add(WORDS_A_PLACE))
}
