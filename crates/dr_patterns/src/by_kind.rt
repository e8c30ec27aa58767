ghost use Rattle.std.specs.Prelude.{◌≡◌, ℕ, List, IfOk};
ghost use Rattle.dr_patterns.specs.Fitting.{fits_some, FitSame};

use crate::edges::Edges;
use crate::gathered::Gathered;
use crate::parts::parts_together;
use crate::side::Side;
use crate::words::Words;
use dr_base::Text;
use dr_like::fits;
use std::alloc::{AllocError, Global};
use std::marker::Model;

// Patterns, by what they ask of a text, ready to be asked together. A contract sees the list of them.
#[derive(Drop)]
pub struct ByKind {
    words: Words,
    starts: Edges,
    ends: Edges,
    parts: Edges,
    others: Vec<Text>,
}

impl Model for ByKind {
    ghost use Rattle.std.specs.Prelude.{◌≡◌, ℕ, List};
    ghost use Rattle.dr_patterns.specs.declared.side.Side.TheVariants.{Start, End};
    ghost use Rattle.dr_patterns.specs.Literals.{patterns_of, MadeOfLiterals};

    ghost Value = { List (List ℕ) };

    ghost view = { λ k. patterns_of k.words k.starts.1 k.ends.1 k.parts.1 k.others.items };

    ghost invariant = { λ k. MadeOfLiterals k.words k.starts.1 k.ends.1 k.parts.1 × (k.starts.0 ≡ Start) × (k.ends.0 ≡ End) × (k.parts.0 ≡ Start) };
}

impl ByKind {
    // The patterns that were gathered, sorted. The only error is that memory ran out.
    pub fn of(alloc: Global, gathered: Gathered) -> Result<ByKind, AllocError>
        ensures { IfOk result (λ k. FitSame k gathered) }
    {
        let Gathered {
            words,
            starts,
            ends,
            parts,
            mut others,
        } = gathered;
        let starts = Edges::of(alloc, Side::Start, starts)?;
        let ends = Edges::of(alloc, Side::End, ends)?;
        let together = parts_together(alloc, parts, &mut others)?;
        let parts = Edges::of(alloc, Side::Start, together)?;
        Ok(ByKind {
            words,
            starts,
            ends,
            parts,
            others,
        })
    }

    // Whether a text fits one of the patterns.
    pub fn hold(&self, text: &str) -> bool
        ensures { result ≡ fits_some self.now text.now }
    {
        if self.words.contain(text) {
            return true;
        }
        if self.starts.meet(text) {
            return true;
        }
        if self.ends.meet(text) {
            return true;
        }
        if self.parts.meet_behind_run(text) {
            return true;
        }
        fits_one(self.others.as_slice(), text)
    }
}

// Whether a text fits one of the patterns, each of which is tried.
fn fits_one(patterns: &[Text], text: &str) -> bool
    ensures { result ≡ fits_some patterns.now text.now }
{
    for pattern in patterns {
        if fits(pattern.as_str(), text) {
            return true;
        }
    }
    false
}
