ghost use Rattle.std.specs.Prelude.{◌<◌};
ghost use Rattle.dr_letters.specs.Ranks.{AreApart, HasSets};

use crate::digit_sets::{base_for, digit_of, digit_sets};
use crate::ranks::ranked;
use crate::text_letter::TextLetter;
use dr_rowindex::RowSet;
use std::alloc::{AllocError, Global};
use std::collections::BTreeMap;

/// Codes that few of some texts have at a place. Each has a rank of two digits, and of each digit it is kept which texts have a code with
/// it, so the texts that have a code are those that are in two sets.
#[derive(Drop)]
pub struct RareCodes {
    /// How many texts there are.
    pub row_count: usize,
    /// The rank of each code.
    pub ranks: BTreeMap<u32, usize>,
    /// What the last digit of a rank is less than.
    pub base: usize,
    /// The texts whose code has a rank with each last digit, by this digit.
    pub last: Vec<RowSet>,
    /// The texts whose code has a rank with each first digit, by this digit.
    pub first: Vec<RowSet>,
    ghost apart: { AreApart ranks },
    ghost some: { 0 < base },
    ghost last_sets: { HasSets row_count ranks 1 base last.items },
    ghost first_sets: { HasSets row_count ranks base 18446744073709551615 first.items },
}

impl RareCodes {
    ghost use Rattle.std.specs.Prelude.{◌≡◌, ◌==◌, ℕ, Bool, true, false, List, length, get_or, IfOk, IfSome, IsSome, MatchOption, is_some};
    ghost use Rattle.std.specs.List.{All};
    ghost use Rattle.dr_letters.specs.Pieces.{MeetsTwo};
    ghost use Rattle.dr_letters.specs.Ranks.{rank_of};
    ghost use Rattle.dr_letters.specs.Rare.{AreRare, HoldRare};

    // The codes of some letters, each of one of so many texts. The only error is that memory ran out. It takes n log n in the letters, and
    // memory for each code, and by a bit for each text for each digit, of which there are about as many as twice the square root of the
    // codes.
    pub fn of(alloc: Global, count: usize, letters: &[TextLetter]) -> Result<RareCodes, AllocError>
        requires { All (λ l. l.row < count) letters.now }
        ensures count { IfOk result (λ r. r.row_count ≡ count) }
        ensures held { IfOk result (λ r. HoldRare count letters.now r) }
        ensures only { IfOk result (λ r. (test : ℕ → Bool) (n : ℕ) → All (λ l. test l.code ≡ true) letters.now → IsSome (rank_of r.ranks n) → test n ≡ true) }
    {
        let ranks = ranked(alloc, letters)?;
        let own = ranks.of_letters.as_slice();
        let most = ranks.codes.len();
        let base = base_for(most);
        let last = digit_sets(alloc, count, letters, own, most, 1, base)?;
        let first = digit_sets(alloc, count, letters, own, most, base, usize::MAX)?;
        Ok(RareCodes {
            row_count: count,
            ranks: ranks.of_codes,
            base,
            last,
            first,
        })
    }

    // How many sets of texts it keeps.
    pub fn set_count(&self) -> usize {
        self.last.len().saturating_add(self.first.len())
    }

    // Whether it is one of these codes. It takes logarithmic time in these.
    pub fn has(&self, code: u32) -> bool
        ensures { result ≡ is_some (rank_of self.now.ranks code) }
    {
        self.ranks.contains_key(&code)
    }

    // Two sets, in both of which are just the texts that have a code, and nothing where no text has it. It takes logarithmic time in the
    // codes.
    pub fn sets_with(&self, code: u32) -> Option<(&RowSet, &RowSet)>
        ensures rows { IfSome result (λ r. (length r.0.now ≡ self.now.row_count) × (length r.1.now ≡ self.now.row_count)) }
        ensures ranked { IfSome result (λ s. IsSome (rank_of self.now.ranks code)) }
        ensures told { (test : ℕ → Bool) (codes : List ℕ) → AreRare test codes self.now → test code ≡ true → MatchOption result ((i n : ℕ) → i < length codes → (get_or codes i n == code) ≡ false) (λ r. MeetsTwo (λ n. n == code) codes r.0.now r.1.now) }
    {
        let rank = *self.ranks.get(&code)?;
        Some((
            &self.last[digit_of(rank, 1, self.base)],
            &self.first[digit_of(rank, self.base, usize::MAX)],
        ))
    }
}
