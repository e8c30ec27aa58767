ghost use Rattle.std.specs.Prelude.{◌≡◌, ◌<◌, ◌≤◌, ◌+◌, Bool, true, false, ℕ, List, length, get_or, take, IfSome};
ghost use Rattle.std.specs.List.{All};
ghost use Rattle.dr_rowindex.specs.Orders.{Tell};
ghost use Rattle.dr_letters.specs.Codes.{Keeps};
ghost use Rattle.dr_letters.specs.declared.asked_letter.AskedLetter.{AskedLetter};
ghost use Rattle.dr_letters.specs.Pieces.{IsWithin, Gains, Meets, MeetsTwo, asks, asks_each};

use crate::asked_letter::AskedLetter;
use crate::letter_rows::LetterRows;
use dr_rowindex::RowSet;

// So many letters of a piece are asked before it is looked whether any text may have the others.
const FIRST: usize = 4;

// It is looked where there are so many texts: of fewer it takes as long to ask the letters.
const MANY: usize = 4096;

// Of so many texts it is looked at so many letters before the first is asked; of fewer at those alone that are asked first.
const FIRST_OF_MANY: usize = 32;

// Where so many letters are left to be asked, and no more texts than letters, each of these is asked by itself.
const ENOUGH: usize = 8;

impl<'a> LetterRows<'a> {
    // Adds those of some texts that have each of some letters of a pattern where it is asked while so many places are to spare. What is in
    // the set that is lent for it isn't asked.
    pub(crate) fn insert_asked(
        &self,
        letters: &[AskedLetter],
        spare: usize,
        behind: &RowSet,
        set: &mut RowSet,
        found: &mut RowSet,
    )
        requires places { All (λ a. IsWithin spare self.now.1 a) letters.now }
        requires behind { length behind.now ≡ length self.now.0 }
        requires set { length set.old ≡ length self.now.0 }
        requires found { length found.old ≡ length self.now.0 }
        ensures set { length set.new ≡ length self.now.0 }
        ensures found { Gains (asks_each spare letters.now) self.now.0 behind.now found.old found.new }
    {
        if behind.has_none() || self.inserts_few(letters, spare, behind, found) {
            return;
        }
        let some = letters.len().min(self.looked_at_first());
        if !self.may_have_each(&letters[..some], spare) {
            return;
        }
        let k = self.put_first(letters, spare, behind, set);
        let left = letters.len().min(FIRST).saturating_sub(k);
        self.insert_more(&letters[k..], left, spare, set, found);
    }

    // At how many letters of a piece it is looked whether any text may have them before the first is asked.
    fn looked_at_first(&self) -> usize {
        if self.text_count() < MANY {
            FIRST
        } else {
            FIRST_OF_MANY
        }
    }

    // Adds those of some texts that have each of some letters. So many are asked before it is looked whether any text may have the others,
    // which takes time by all of them. The texts are left as those that have the first of them.
    fn insert_more(
        &self,
        letters: &[AskedLetter],
        some: usize,
        spare: usize,
        set: &mut RowSet,
        found: &mut RowSet,
    )
        requires some { some ≤ length letters.now }
        requires places { All (λ a. IsWithin spare self.now.1 a) letters.now }
        requires set { length set.old ≡ length self.now.0 }
        requires found { length found.old ≡ length self.now.0 }
        ensures set { length set.new ≡ length self.now.0 }
        ensures found { Gains (asks_each spare letters.now) self.now.0 set.old found.old found.new }
    {
        let k = self.keep_first(letters, some, spare, set);
        let more = &letters[k..];
        if set.has_none() || !self.may_go_on(more, spare) {
            return;
        }
        if more.len() >= ENOUGH && are_at_most(more.len(), set) {
            self.insert_each(more, spare, set, found);
            return;
        }
        self.insert_rest(more, spare, set, found);
    }

    // Adds those of some texts that have each of some letters, each of which is asked by itself.
    fn insert_each(&self, letters: &[AskedLetter], spare: usize, set: &RowSet, found: &mut RowSet)
        requires places { All (λ a. IsWithin spare self.now.1 a) letters.now }
        requires set { length set.now ≡ length self.now.0 }
        requires found { length found.old ≡ length self.now.0 }
        ensures { Gains (asks_each spare letters.now) self.now.0 set.now found.old found.new }
    {
        let mut row = 0;
        while let Some(next) = set.first_from(row) {
            if self.has_each(next, letters, spare) {
                found.insert(next);
            }
            prove!(next < self.text_count());
            row = next + 1;
        }
    }

    // Whether any text may have each of some letters that are asked next. It takes time by these. Of fewer texts nothing is looked at, since
    // it takes as long to ask them.
    fn may_go_on(&self, letters: &[AskedLetter], spare: usize) -> bool
        requires { All (λ a. IsWithin spare self.now.1 a) letters.now }
        ensures { result ≡ false → (i : ℕ) (t : List ℕ) → i < length self.now.0 → asks_each spare letters.now (get_or self.now.0 i t) ≡ false }
    {
        self.text_count() < MANY || self.may_have_each(letters, spare)
    }

    // The same where any text may have each of them.
    fn insert_rest(
        &self,
        letters: &[AskedLetter],
        spare: usize,
        set: &mut RowSet,
        found: &mut RowSet,
    )
        requires places { All (λ a. IsWithin spare self.now.1 a) letters.now }
        requires set { length set.old ≡ length self.now.0 }
        requires found { length found.old ≡ length self.now.0 }
        ensures set { length set.new ≡ length self.now.0 }
        ensures found { Gains (asks_each spare letters.now) self.now.0 set.old found.old found.new }
    {
        let k = self.keep_first(letters, letters.len().saturating_sub(4), spare, set);
        let last = &letters[k..];
        if self.inserts_few(last, spare, set, found) {
            return;
        }
        self.keep_each(last, spare, set);
        found.or(set);
    }

    // Adds those of some texts that have each of some letters, where these are one to four of which it is kept which texts have them.
    // Answers whether they are.
    fn inserts_few(
        &self,
        letters: &[AskedLetter],
        spare: usize,
        behind: &RowSet,
        found: &mut RowSet,
    ) -> bool
        requires places { All (λ a. IsWithin spare self.now.1 a) letters.now }
        requires behind { length behind.now ≡ length self.now.0 }
        requires found { length found.old ≡ length self.now.0 }
        ensures some { result ≡ true → Gains (asks_each spare letters.now) self.now.0 behind.now found.old found.new }
        ensures none { result ≡ false → found.new ≡ found.old }
    {
        if let Some((a, b)) = self.two(letters, spare) {
            found.or_and_two(behind, a, b);
            return true;
        }
        if let Some((a, b, c, d)) = self.four(letters, spare) {
            found.or_and_four(behind, a, b, c, d);
            return true;
        }
        false
    }

    // Two sets, in both of which are just the texts that have each of one or two letters, where these are kept; of two, where many have each.
    fn two(&self, letters: &[AskedLetter], spare: usize) -> Option<(&RowSet, &RowSet)>
        requires { All (λ a. IsWithin spare self.now.1 a) letters.now }
        ensures { IfSome result (λ r. MeetsTwo (asks_each spare letters.now) self.now.0 r.0.now r.1.now) }
    {
        let count = letters.len();
        if count == 1 {
            return self.pair_at(&letters[0], spare);
        }
        if count != 2 {
            return None;
        }
        let a = self.texts_at(&letters[0], spare)?;
        let b = self.texts_at(&letters[1], spare)?;
        Some((a, b))
    }

    // Four sets, in each of which are just the texts that have each of two to four letters, where these are kept; of more than two, where
    // many have each, and of three the last stands for the fourth.
    fn four(
        &self,
        letters: &[AskedLetter],
        spare: usize,
    ) -> Option<(&RowSet, &RowSet, &RowSet, &RowSet)>
        requires { All (λ a. IsWithin spare self.now.1 a) letters.now }
        ensures { IfSome result (λ r. Meets (asks_each spare letters.now) self.now.0 r.0.now r.1.now r.2.now r.3.now) }
    {
        let count = letters.len();
        if count == 2 {
            let (a, b) = self.pair_at(&letters[0], spare)?;
            let (c, d) = self.pair_at(&letters[1], spare)?;
            return Some((a, b, c, d));
        }
        if count < 3 || count > 4 {
            return None;
        }
        let a = self.texts_at(&letters[0], spare)?;
        let b = self.texts_at(&letters[1], spare)?;
        let c = self.texts_at(&letters[2], spare)?;
        let d = self.texts_at(&letters[count - 1], spare)?;
        Some((a, b, c, d))
    }

    // Keeps of some texts those that have each of the first of some letters: of so many at least, or fewer where these leave no text.
    // Answers how many.
    fn keep_first(
        &self,
        letters: &[AskedLetter],
        some: usize,
        spare: usize,
        set: &mut RowSet,
    ) -> usize
        requires some { some ≤ length letters.now }
        requires places { All (λ a. IsWithin spare self.now.1 a) letters.now }
        requires rows { length set.old ≡ length self.now.0 }
        ensures within { result ≤ length letters.now }
        ensures kept { Keeps (asks_each spare (take result letters.now)) self.now.0 set.old set.new }
    {
        let mut k = 0;
        while k < some && !set.has_none() {
            k = self.keep_from(letters, k, spare, set);
        }
        k
    }

    // Puts those of some texts that have each of the first four letters, where it is kept which texts have them, and else all. Answers how
    // many letters were asked.
    fn put_first(
        &self,
        letters: &[AskedLetter],
        spare: usize,
        behind: &RowSet,
        set: &mut RowSet,
    ) -> usize
        requires places { All (λ a. IsWithin spare self.now.1 a) letters.now }
        requires behind { length behind.now ≡ length self.now.0 }
        requires set { length set.old ≡ length self.now.0 }
        ensures within { result ≤ length letters.now }
        ensures kept { Keeps (asks_each spare (take result letters.now)) self.now.0 behind.now set.new }
    {
        match self.four_from(letters, 0, spare) {
            Some((a, b, c, d)) => {
                set.copy_from_and_four(behind, a, b, c, d);
                4
            }
            None => {
                set.copy_from(behind);
                0
            }
        }
    }

    // Keeps of some texts those that have each of some letters of a pattern where it is asked.
    pub(crate) fn keep_each(&self, letters: &[AskedLetter], spare: usize, set: &mut RowSet)
        requires places { All (λ a. IsWithin spare self.now.1 a) letters.now }
        requires rows { length set.old ≡ length self.now.0 }
        ensures { Keeps (asks_each spare letters.now) self.now.0 set.old set.new }
    {
        let mut k = 0;
        while k < letters.len() {
            if set.has_none() {
                return;
            }
            k = self.keep_from(letters, k, spare, set);
        }
    }

    // Keeps of some texts those that have the letter at a place among these, or it and the next three, which takes less time together.
    // Answers the place behind.
    fn keep_from(&self, letters: &[AskedLetter], k: usize, spare: usize, set: &mut RowSet) -> usize
        requires some { k < length letters.now }
        requires places { All (λ a. IsWithin spare self.now.1 a) letters.now }
        requires rows { length set.old ≡ length self.now.0 }
        ensures more { k < result }
        ensures within { result ≤ length letters.now }
        ensures kept { (before : List Bool) → Keeps (asks_each spare (take k letters.now)) self.now.0 before set.old → Keeps (asks_each spare (take result letters.now)) self.now.0 before set.new }
    {
        match self.four_from(letters, k, spare) {
            Some((a, b, c, d)) => {
                set.and_four(a, b, c, d);
                k + 4
            }
            None => {
                let asked = &letters[k];
                self.keep(asked.place - spare, asked.letter, set);
                k + 1
            }
        }
    }

    // The texts that have each of four letters from a place among these on, where these are kept.
    fn four_from(
        &self,
        letters: &[AskedLetter],
        k: usize,
        spare: usize,
    ) -> Option<(&RowSet, &RowSet, &RowSet, &RowSet)>
        requires within { k ≤ length letters.now }
        requires places { All (λ a. IsWithin spare self.now.1 a) letters.now }
        ensures within { IfSome result (λ r. k + 4 ≤ length letters.now) }
        ensures told { IfSome result (λ r. (a : AskedLetter) → Tell (asks spare (get_or letters.now k a)) self.now.0 r.0.now × (Tell (asks spare (get_or letters.now (k + 1) a)) self.now.0 r.1.now × (Tell (asks spare (get_or letters.now (k + 2) a)) self.now.0 r.2.now × Tell (asks spare (get_or letters.now (k + 3) a)) self.now.0 r.3.now))) }
    {
        if letters.len() - k < 4 {
            return None;
        }
        let a = self.texts_at(&letters[k], spare)?;
        let b = self.texts_at(&letters[k + 1], spare)?;
        let c = self.texts_at(&letters[k + 2], spare)?;
        let d = self.texts_at(&letters[k + 3], spare)?;
        Some((a, b, c, d))
    }
}

// Whether a set has so many texts at most. It takes time by these, and by the texts, 64 at once.
fn are_at_most(most: usize, set: &RowSet) -> bool {
    let mut row = 0;
    for _ in 0..most {
        match set.first_from(row) {
            Some(next) => row = next.saturating_add(1),
            None => return true,
        }
    }
    set.first_from(row).is_none()
}
