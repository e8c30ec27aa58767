ghost use Rattle.std.specs.Prelude.{◌≡◌, ◌⊎◌, ℕ, Bool, true, Some, IfOk};
ghost use Rattle.std.specs.List.{All};
ghost use Rattle.dr_letters.specs.Ranks.{AreRanked, AreRanksOf, rank_of};

use crate::text_letter::TextLetter;
use std::alloc::{AllocError, Global};
use std::collections::BTreeMap;

/// Codes with ranks, from 0 on.
#[derive(Drop)]
pub struct Ranks {
    /// The rank of each code.
    pub of_codes: BTreeMap<u32, usize>,
    /// The codes in the order of their ranks.
    pub codes: Vec<u32>,
    /// The ranks of the codes of some letters, in the order of the letters.
    pub of_letters: Vec<usize>,
}

// The ranks of the codes of some letters. The only error is that memory ran out. It takes n log n in the letters, and memory for each.
pub fn ranked(alloc: Global, letters: &[TextLetter]) -> Result<Ranks, AllocError>
    ensures own { IfOk result (λ p. AreRanked p.of_codes p.codes.items) }
    ensures each { IfOk result (λ p. AreRanksOf p.of_codes letters.now p.of_letters.items) }
    ensures only { IfOk result (λ p. (test : ℕ → Bool) (n r : ℕ) → All (λ l. test l.code ≡ true) letters.now → rank_of p.of_codes n ≡ Some r → test n ≡ true) }
{
    let mut of_codes = BTreeMap::new(alloc);
    let mut codes = Vec::new(alloc);
    let mut of_letters = Vec::with_capacity(alloc, letters.len())?;
    for letter in letters {
        of_letters.push(rank(&mut of_codes, &mut codes, letter.code)?)?;
    }
    Ok(Ranks {
        of_codes,
        codes,
        of_letters,
    })
}

// The rank of a code, which gets the next one where it has none.
fn rank(
    of_codes: &mut BTreeMap<u32, usize>,
    codes: &mut Vec<u32>,
    code: u32,
) -> Result<usize, AllocError>
    requires { AreRanked of_codes.old codes.old.items }
    ensures own { IfOk result (λ r. AreRanked of_codes.new codes.new.items) }
    ensures there { IfOk result (λ r. rank_of of_codes.new code ≡ Some r) }
    ensures others { IfOk result (λ r. (n k : ℕ) → rank_of of_codes.old n ≡ Some k → rank_of of_codes.new n ≡ Some k) }
    ensures only { IfOk result (λ r. (n k : ℕ) → rank_of of_codes.new n ≡ Some k → (rank_of of_codes.old n ≡ Some k) ⊎ (n ≡ code)) }
{
    if let Some(rank) = of_codes.get(&code) {
        return Ok(*rank);
    }
    let rank = codes.len();
    of_codes.insert(code, rank)?;
    codes.push(code)?;
    Ok(rank)
}
