ghost use Rattle.std.specs.Prelude.{◌≡◌, ◌≤◌, ◌+◌, ◌++◌, ◌∷◌, nat_lt, Bool, ℕ, List, length, IfOk};
ghost use Rattle.std.specs.Str.{chars};
ghost use Rattle.dr_like.specs.Like.{fits};
ghost use Rattle.dr_like.specs.Letters.{Lacks};
ghost use Rattle.dr_rowindex.specs.Orders.{Tell};
ghost use Rattle.dr_letters.specs.States.{fits_from, left_fits};

use crate::counting::letter_count;
use crate::letter_rows::LetterRows;
use crate::piece::Piece;
use crate::reading::is_ended;
use dr_like::split_at_letter;
use dr_rowindex::RowSet;
use std::alloc::{AllocError, Global};

impl<'a> LetterRows<'a> {
    /// The texts that fit a pattern of `like` (Apache Druid documentation, query filters: like). The only error is that memory ran out.
    /// A letter of the pattern before its first `%` takes time by the texts, 64 at once, and where fewer than one text in 64 has it there twice
    /// that and a logarithm of the characters that so few have; each other one takes that as often as there are places where it may stand:
    /// one more than the places are that the pattern has no letter for. For each part behind a `%` it takes memory by a bit for each text.
    /// Where letters leave no text, the next ones take no time, nor does a `_` that has another letter behind it; and nothing is asked of a
    /// part at a place where no text has one of its last four letters, or, of 4,096 texts or more, one of the others once these are asked. A
    /// text that has more characters than places are known is asked by itself, as by
    /// [`LetterPlaces::fits`](dr_places::LetterPlaces::fits), where it is kept where its letters stand, and else as by
    /// [`fits_soonest`](dr_places::fits_soonest), unless those that are known tell whether it fits: of a pattern without `%`, or with one at
    /// its end alone, that has no more letters than these. So is each text where that takes less time, as where a pattern has many parts and
    /// the texts are few and long: that is reckoned from how many of each there are, and where it is close, from a look at sixteen of the
    /// places, whether any text may have the last letters of the pattern there.
    pub fn fitting(&self, alloc: Global, pattern: &str) -> Result<RowSet, AllocError>
        ensures { IfOk result (λ s. Tell (λ t. fits (chars pattern.now) (chars t)) self.now.0 s) }
    {
        match split_at_letter(pattern, '%') {
            Some((start, more)) => self.fitting_runs(alloc, pattern, start, more),
            None => self.fitting_whole(alloc, pattern),
        }
    }

    // Those that fit a pattern without a run: none of another number of characters does.
    fn fitting_whole(&self, alloc: Global, pattern: &str) -> Result<RowSet, AllocError>
        requires { Lacks 37 (chars pattern.now) }
        ensures { IfOk result (λ s. Tell (λ t. fits (chars pattern.now) (chars t)) self.now.0 s) }
    {
        let count = letter_count(pattern);
        if count > self.place_count() {
            let mut set = RowSet::none(alloc, self.text_count())?;
            self.insert_long(alloc, pattern, &mut set)?;
            return Ok(set);
        }
        let ended = self.ended(count).copy(alloc)?;
        let set = self.fitting_start(alloc, pattern, count, ended)?;
        Ok(set)
    }

    // Those that fit a pattern that is a start without a run, a run, and what follows it.
    fn fitting_runs(
        &self,
        alloc: Global,
        pattern: &str,
        start: &str,
        more: &str,
    ) -> Result<RowSet, AllocError>
        requires lacks { Lacks 37 (chars start.now) }
        requires parts { chars pattern.now ≡ chars start.now ++ 37 ∷ chars more.now }
        ensures { IfOk result (λ s. Tell (λ t. fits (chars pattern.now) (chars t)) self.now.0 s) }
    {
        let count = letter_count(start);
        if is_ended(more) && count <= self.place_count() {
            let all = RowSet::all(alloc, self.text_count())?;
            let set = self.fitting_start(alloc, start, count, all)?;
            return Ok(set);
        }
        if self.are_sooner_alone(count, more) {
            let set = self.fitting_alone(alloc, pattern)?;
            return Ok(set);
        }
        let mut set = self.short_fitting(alloc, start, more)?;
        self.insert_long(alloc, pattern, &mut set)?;
        Ok(set)
    }

    // Those that fit a start without a run, a run, and what follows it, of the texts that have no more characters than there are places.
    fn short_fitting(&self, alloc: Global, start: &str, more: &str) -> Result<RowSet, AllocError>
        requires { Lacks 37 (chars start.now) }
        ensures { IfOk result (λ s. Tell (left_fits self.now.1 (chars start.now ++ 37 ∷ chars more.now) 0) self.now.0 s) }
    {
        let count = letter_count(start);
        if are_more(count, letter_count(more), self.place_count()) {
            return Ok(RowSet::none(alloc, self.text_count())?);
        }
        let behind = self.fitting_run(alloc, count, more)?;
        let set = self.fitting_start(alloc, start, count, behind)?;
        Ok(set)
    }

    // Of the texts that fit something behind a start those that fit the start too.
    fn fitting_start(
        &self,
        alloc: Global,
        start: &str,
        count: usize,
        behind: RowSet,
    ) -> Result<RowSet, AllocError>
        requires count { count ≡ length (chars start.now) }
        requires places { count ≤ self.now.1 }
        requires rows { length behind ≡ length self.now.0 }
        requires lacks { Lacks 37 (chars start.now) }
        ensures { IfOk result (λ s. (asked : List ℕ → Bool) (pattern : List ℕ) → Tell (fits_from asked pattern count) self.now.0 behind → Tell (fits_from asked (chars start.now ++ pattern) 0) self.now.0 s) }
    {
        let piece = Piece::of(alloc, start, count, true)?;
        let letters = piece.letters.as_slice();
        if !self.may_have_each(letters, 0) {
            return Ok(RowSet::none(alloc, self.text_count())?);
        }
        let mut set = behind;
        self.keep_each(letters, 0, &mut set);
        Ok(set)
    }
}

// Whether two numbers together are more than a third.
fn are_more(some: usize, others: usize, most: usize) -> bool
    ensures { result ≡ nat_lt most (some + others) }
{
    some > most || others > most - some
}
