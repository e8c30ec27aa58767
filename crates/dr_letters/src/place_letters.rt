ghost use Rattle.std.specs.Prelude.{◌≡◌, ◌<◌, ◌==◌, ◌&&◌, ◌%◌, not, true, false, ℕ, List, length, get_or, IfOk, IfSome, IsSome, MatchOption, None};
ghost use Rattle.std.specs.List.{All, filter, list_any};
ghost use Rattle.dr_rowindex.specs.Orders.{Tell};
ghost use Rattle.dr_letters.specs.declared.common_code.CommonCode.{CommonCode};
ghost use Rattle.dr_letters.specs.Codes.{AreRead, Keeps, is_common, is_rare};
ghost use Rattle.dr_letters.specs.Pieces.{MeetsTwo};
ghost use Rattle.dr_letters.specs.Ranks.{rank_of};

use crate::common_code::{CommonCode, common_codes};
use crate::rare_codes::RareCodes;
use crate::text_letter::TextLetter;
use dr_rowindex::RowSet;
use std::alloc::{AllocError, Global};

// Codes with the same remainder by this are looked for at the same place; of all letters of ASCII each has its own.
const REMAINDERS: usize = 128;

// What a set takes besides a bit for each text.
const BYTES_OF_A_SET: usize = 64;

// What a code with its rank takes.
const BYTES_OF_A_RANK: usize = 24;

// Which characters some texts have at one place. Each is told by its code, the number of the character counted from 1, which is 0 of
// a text that ends before.
#[derive(Drop)]
pub struct PlaceLetters {
    // The texts that end before the place.
    ended: RowSet,
    // Of the codes that many texts have, which these are.
    common: Vec<CommonCode>,
    // The other codes, and which texts have them.
    rare: RareCodes,
    // The remainders of the codes that any text has.
    seen: RowSet,
    // Of each remainder at which place among the common codes one with it may stand.
    hints: Vec<u8>,
    ghost common_count: { All (λ c. length c.texts ≡ length ended) common.items },
    ghost rare_count: { rare.row_count ≡ length ended },
    ghost rare_own: { (n : ℕ) → IsSome (rank_of rare.ranks n) → is_common common.items n ≡ false },
}

impl PlaceLetters {
    ghost use Rattle.dr_letters.specs.Places.{IsPlace};

    // The characters that so many texts have, those that have one. The only error is that memory ran out. It takes n log n in the
    // characters, and time by them for each code that one text in 64 has at least; and memory by a bit for each text, for each of these
    // codes and as for [`RareCodes::of`] for the others.
    pub fn of(
        alloc: Global,
        count: usize,
        letters: &[TextLetter],
    ) -> Result<PlaceLetters, AllocError>
        requires { All (λ l. l.row < count) letters.now }
        ensures { IfOk result (λ p. (codes : List ℕ) → length codes ≡ count → AreRead letters.now codes → IsPlace codes p) }
    {
        let ended = ended_of(alloc, count, letters)?;
        let common = common_codes(alloc, count, letters)?;
        let codes = common.as_slice();
        let hints = hints_of(alloc, codes)?;
        let found = others_of(alloc, codes, hints.as_slice(), letters)?;
        let others = found.as_slice();
        let rare = RareCodes::of(alloc, count, others)?;
        let seen = seen_of(alloc, letters)?;
        Ok(PlaceLetters {
            ended,
            common,
            rare,
            seen,
            hints,
        })
    }

    // How many bytes it takes, about.
    pub fn size(&self) -> usize {
        let sets = self
            .rare
            .set_count()
            .saturating_add(self.common.len())
            .saturating_add(2);
        let set = BYTES_OF_A_SET + self.ended.row_count() / 8;
        let ranks = self.rare.ranks.len().saturating_mul(BYTES_OF_A_RANK);
        sets.saturating_mul(set).saturating_add(ranks)
    }

    // The texts that end before the place.
    pub fn ended(&self) -> &RowSet
        ensures { (codes : List ℕ) → IsPlace codes self.now → Tell (λ n. n == 0) codes result.now }
    {
        &self.ended
    }

    // Whether any text may have the character with this code here. It takes constant time, or a logarithm of the codes that few have and
    // time by those that many have.
    pub fn may_have(&self, code: u32) -> bool
        requires { 0 < code }
        ensures { result ≡ false → (codes : List ℕ) → IsPlace codes self.now → (i n : ℕ) → i < length codes → (get_or codes i n == code) ≡ false }
    {
        self.seen.contains(remainder_of(code)) && self.has(code)
    }

    // Whether the code is among those that are kept.
    fn has(&self, code: u32) -> bool
        requires { 0 < code }
        ensures { result ≡ false → (is_common self.now.common.items code ≡ false) × (rank_of self.now.rare.ranks code ≡ None) }
    {
        self.hinted_texts(code).is_some()
            || self.rare.has(code)
            || self.searched_texts(code).is_some()
    }

    // Keeps of some texts those that have the character with this code here. It takes time by the texts, 64 at once, and a logarithm of the
    // codes that few have.
    pub fn keep(&self, code: u32, set: &mut RowSet)
        requires rows { length set.old ≡ length self.now.ended }
        requires some { 0 < code }
        ensures { (codes : List ℕ) → IsPlace codes self.now → Keeps (λ n. n == code) codes set.old set.new }
    {
        match self.texts_with(code) {
            Some(texts) => set.and(texts),
            None => self.keep_rare(code, set),
        }
    }

    // The texts that have the character with this code, where these are many. It takes constant time where they are, and else a logarithm
    // of the codes that few have, or time by those that many have.
    pub fn texts_with(&self, code: u32) -> Option<&RowSet>
        requires { 0 < code }
        ensures count { IfSome result (λ s. length s.now ≡ length self.now.ended) }
        ensures told { MatchOption result (is_common self.now.common.items code ≡ false) (λ s. (codes : List ℕ) → IsPlace codes self.now → Tell (λ n. n == code) codes s.now) }
    {
        if let Some(texts) = self.hinted_texts(code) {
            return Some(texts);
        }
        if self.rare.has(code) {
            return None;
        }
        self.searched_texts(code)
    }

    // Two sets, in both of which are just the texts that have the character with this code; nothing where no text has it. It takes the time
    // of `texts_with`.
    pub fn pair_with(&self, code: u32) -> Option<(&RowSet, &RowSet)>
        requires { 0 < code }
        ensures { IfSome result (λ r. (codes : List ℕ) → IsPlace codes self.now → MeetsTwo (λ n. n == code) codes r.0.now r.1.now) }
    {
        if let Some(texts) = self.hinted_texts(code) {
            return Some((texts, texts));
        }
        if let Some(sets) = self.few_with(code) {
            return Some(sets);
        }
        let texts = self.searched_texts(code)?;
        Some((texts, texts))
    }

    // The texts that have the character with this code, where it is told at which place they stand. It takes constant time.
    fn hinted_texts(&self, code: u32) -> Option<&RowSet>
        requires { 0 < code }
        ensures count { IfSome result (λ s. length s.now ≡ length self.now.ended) }
        ensures told { IfSome result (λ s. (codes : List ℕ) → IsPlace codes self.now → Tell (λ n. n == code) codes s.now) }
    {
        let k = hinted(self.common.as_slice(), self.hints.as_slice(), code)?;
        Some(&self.common[k].texts)
    }

    // The texts that have the character with this code, where these are many. It takes time by the codes that many have.
    fn searched_texts(&self, code: u32) -> Option<&RowSet>
        requires { 0 < code }
        ensures count { IfSome result (λ s. length s.now ≡ length self.now.ended) }
        ensures told { MatchOption result (is_common self.now.common.items code ≡ false) (λ s. (codes : List ℕ) → IsPlace codes self.now → Tell (λ n. n == code) codes s.now) }
    {
        let k = searched(self.common.as_slice(), code)?;
        Some(&self.common[k].texts)
    }

    // Two sets, in both of which are just the texts that have the character with this code, where these are few; nothing where they are
    // many or none. It takes logarithmic time in the codes that few have.
    fn few_with(&self, code: u32) -> Option<(&RowSet, &RowSet)>
        requires { 0 < code }
        ensures rows { IfSome result (λ r. (length r.0.now ≡ length self.now.ended) × (length r.1.now ≡ length self.now.ended)) }
        ensures told { MatchOption result (is_common self.now.common.items code ≡ false → (codes : List ℕ) → IsPlace codes self.now → (i n : ℕ) → i < length codes → (get_or codes i n == code) ≡ false) (λ r. (codes : List ℕ) → IsPlace codes self.now → MeetsTwo (λ n. n == code) codes r.0.now r.1.now) }
    {
        match self.rare.sets_with(code) {
            Some(sets) => Some(sets),
            None => None,
        }
    }

    fn keep_rare(&self, code: u32, set: &mut RowSet)
        requires rows { length set.old ≡ length self.now.ended }
        requires some { 0 < code }
        requires rare { is_common self.now.common.items code ≡ false }
        ensures { (codes : List ℕ) → IsPlace codes self.now → Keeps (λ n. n == code) codes set.old set.new }
    {
        match self.few_with(code) {
            Some((a, b)) => {
                set.and(a);
                set.and(b);
            }
            None => {
                set.and(&self.ended);
                set.and_not(&self.ended);
            }
        }
    }

    // Keeps of some texts those that have any character here. It takes time by the texts, 64 at once.
    pub fn keep_any(&self, set: &mut RowSet)
        requires { length set.old ≡ length self.now.ended }
        ensures { (codes : List ℕ) → IsPlace codes self.now → Keeps (λ n. not (n == 0)) codes set.old set.new }
    {
        set.and_not(&self.ended);
    }
}

// The texts that have no character: all but those that have one. The only error is that memory ran out. It takes time by the characters,
// and memory by a bit for each text.
fn ended_of(alloc: Global, count: usize, letters: &[TextLetter]) -> Result<RowSet, AllocError>
    requires { All (λ l. l.row < count) letters.now }
    ensures count { IfOk result (λ s. length s ≡ count) }
    ensures told { IfOk result (λ s. (codes : List ℕ) → length codes ≡ count → AreRead letters.now codes → Tell (λ n. n == 0) codes s) }
{
    let others = texts_of(alloc, count, letters)?;
    let mut set = RowSet::all(alloc, count)?;
    set.and_not(&others);
    Ok(set)
}

// The characters whose codes aren't common. The only error is that memory ran out. It takes time by the characters, and for each of these
// others by the common codes.
fn others_of(
    alloc: Global,
    common: &[CommonCode],
    hints: &[u8],
    letters: &[TextLetter],
) -> Result<Vec<TextLetter>, AllocError>
    ensures { IfOk result (λ others. others.items ≡ filter (is_rare common.now) letters.now) }
{
    let mut others = Vec::new(alloc);
    for letter in letters {
        if !has_code(common, hints, letter.code) {
            let row = letter.row;
            let code = letter.code;
            others.push(TextLetter { row, code })?;
        }
    }
    Ok(others)
}

// Whether a code is common. It takes constant time where it is, and else time by the common ones.
fn has_code(common: &[CommonCode], hints: &[u8], code: u32) -> bool
    ensures { result ≡ is_common common.now code }
{
    match place_of(common, hints, code) {
        Some(_) => true,
        None => false,
    }
}

// The place of a code among the common ones. It takes constant time where it is told of it, and else time by them.
fn place_of(common: &[CommonCode], hints: &[u8], code: u32) -> Option<usize>
    ensures within { IfSome result (λ k. k < length common.now) }
    ensures told { MatchOption result (is_common common.now code ≡ false) (λ k. (other : CommonCode) → (get_or common.now k other).code ≡ code) }
{
    match hinted(common, hints, code) {
        Some(k) => Some(k),
        None => searched(common, code),
    }
}

// The place where it is told to be, if it is there. It takes constant time.
fn hinted(common: &[CommonCode], hints: &[u8], code: u32) -> Option<usize>
    ensures within { IfSome result (λ k. k < length common.now) }
    ensures told { IfSome result (λ k. (other : CommonCode) → (get_or common.now k other).code ≡ code) }
{
    let hint = hints.get(remainder_of(code))?;
    let k = usize::from(*hint);
    if k < common.len() && common[k].code == code {
        return Some(k);
    }
    None
}

// The place where it is found. It takes time by the codes.
fn searched(common: &[CommonCode], code: u32) -> Option<usize>
    ensures within { IfSome result (λ k. k < length common.now) }
    ensures told { MatchOption result (is_common common.now code ≡ false) (λ k. (other : CommonCode) → (get_or common.now k other).code ≡ code) }
{
    for k in 0..common.len() {
        if common[k].code == code {
            return Some(k);
        }
    }
    None
}

// The texts that have one of some characters. The only error is that memory ran out. It takes time by the characters, and memory by a
// bit for each text.
fn texts_of(alloc: Global, count: usize, letters: &[TextLetter]) -> Result<RowSet, AllocError>
    requires { All (λ l. l.row < count) letters.now }
    ensures count { IfOk result (λ s. length s ≡ count) }
    ensures told { IfOk result (λ s. (i : ℕ) → i < count → get_or s i false ≡ list_any (λ l. (l.row == i) && true) letters.now) }
{
    let mut set = RowSet::none(alloc, count)?;
    for letter in letters {
        set.insert(letter.row);
    }
    Ok(set)
}

// The remainders of the codes. The only error is that memory ran out. It takes time by the characters.
fn seen_of(alloc: Global, letters: &[TextLetter]) -> Result<RowSet, AllocError>
    ensures { IfOk result (λ s. All (λ l. get_or s (l.code % 128) false ≡ true) letters.now) }
{
    let mut seen = RowSet::none(alloc, REMAINDERS)?;
    for letter in letters {
        seen.insert(remainder_of(letter.code));
    }
    Ok(seen)
}

// Of each remainder at which place a code with it may stand. Any place would do.
fn hints_of(alloc: Global, common: &[CommonCode]) -> Result<Vec<u8>, AllocError> {
    let mut hints = vec![in alloc; 0; REMAINDERS]?;
    for k in 0..common.len() {
        let hint = u8::try_from(k).unwrap_or(0);
        if let Some(found) = hints.get_mut(remainder_of(common[k].code)) {
            *found = hint;
        }
    }
    Ok(hints)
}

// What is left of a code where it is divided by how many are looked for at places of their own. It takes constant time.
fn remainder_of(code: u32) -> usize
    ensures { result ≡ code % 128 }
{
    code as usize % REMAINDERS
}
