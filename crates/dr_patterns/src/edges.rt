ghost use Rattle.std.specs.Prelude.{◌≡◌, ◌↔◌, ◌∷◌, [], IfOk, IsTrue, ℕ, List};
ghost use Rattle.dr_patterns.specs.Begun.{begins_some, is_at_most as is_at_most_of, InOrder, Rise, outer_behind};
ghost use Rattle.dr_patterns.specs.Literals.{AreLiteral};
ghost use Rattle.dr_patterns.specs.Sides.{seen, some_at, some_within};

use crate::side::Side;
use dr_base::Text;
use std::alloc::{AllocError, Global};
use std::marker::Model;

// Texts that another one may have at a side, in their order as they are read from there; none of them has another one of them at
// that side. A contract sees the side and the list of the texts.
#[derive(Drop)]
pub struct Edges {
    side: Side,
    texts: Vec<Text>,
}

impl Model for Edges {
    ghost use Rattle.std.specs.Prelude.{ℕ, List};
    ghost use Rattle.dr_patterns.specs.declared.side.Side.{Side};
    ghost use Rattle.dr_patterns.specs.Begun.{Rise};
    ghost use Rattle.dr_patterns.specs.Sides.{seen};

    ghost Value = { Side × List (List ℕ) };

    ghost view = { λ e. (e.side, e.texts.items) };

    ghost invariant = { λ e. Rise (seen e.side) e.texts.items };
}

impl Edges {
    // Texts of which one is at this side of a text where one of these is. The only error is that memory ran out. It takes n log n
    // comparisons of texts.
    pub fn of(alloc: Global, side: Side, texts: Vec<Text>) -> Result<Edges, AllocError>
        ensures side { IfOk result (λ e. e.0 ≡ side) }
        ensures same { IfOk result (λ e. (text : List ℕ) → begins_some (seen side) e.1 text ≡ begins_some (seen side) texts.items text) }
        ensures literal { IfOk result (λ e. AreLiteral texts.items → AreLiteral e.1) }
    {
        let mut sorted = texts;
        sorted.sort_unstable_by(|a: &Text, b: &Text| side.order(a.as_str(), b.as_str()));
        let texts = outer(alloc, side, sorted.as_slice())?;
        Ok(Edges { side, texts })
    }

    // Whether one of them is at their side of a text. It takes no memory, and time by the bytes of the text times the logarithm of
    // their number.
    pub fn meet(&self, text: &str) -> bool
        ensures { result ≡ some_at self.now.0 self.now.1 text.now }
    {
        let side = self.side;
        let place = self
            .texts
            .partition_point(|edge| is_at_most(side, edge.as_str(), text));
        if place == 0 {
            return false;
        }
        side.has(text, self.texts[place - 1].as_str())
    }

    // Whether there is none.
    fn is_empty(&self) -> bool
        ensures { IsTrue result ↔ (self.now.1 ≡ []) }
    {
        self.texts.is_empty()
    }

    // Whether one of them is at their side of what is left of a text behind some run of characters. It takes no memory, and for each
    // character of the text time by the bytes of the longest of them times the logarithm of their number.
    pub fn meet_behind_run(&self, text: &str) -> bool
        ensures { result ≡ some_within self.now.0 self.now.1 text.now }
    {
        if self.is_empty() {
            return false;
        }
        let mut letters = text.chars();
        while !self.meet(letters.as_str()) {
            let Some(_) = letters.next() else {
                return false;
            };
        }
        true
    }
}

// The texts without those that have another one of them at this side.
fn outer(alloc: Global, side: Side, sorted: &[Text]) -> Result<Vec<Text>, AllocError>
    requires { InOrder (seen side) sorted.now }
    ensures rise { IfOk result (λ r. Rise (seen side) r.items) }
    ensures same { IfOk result (λ r. (text : List ℕ) → begins_some (seen side) r.items text ≡ begins_some (seen side) sorted.now text) }
    ensures literal { IfOk result (λ r. AreLiteral sorted.now → AreLiteral r.items) }
{
    match sorted.split_first() {
        Some((first, others)) => {
            let kept = outer_of(alloc, side, first, others)?;
            Ok(kept)
        }
        None => Ok(Vec::new(alloc)),
    }
}

// The first text, and those of the others that don't have the one kept before them at this side.
fn outer_of(
    alloc: Global,
    side: Side,
    first: &Text,
    others: &[Text],
) -> Result<Vec<Text>, AllocError>
    ensures { IfOk result (λ r. r.items ≡ first.now ∷ outer_behind (seen side) first.now others.now) }
{
    let mut kept = Vec::new(alloc);
    kept.push(first.copy()?)?;
    let mut last = first.copy()?;
    for text in others {
        if !side.has(text.as_str(), last.as_str()) {
            last = text.copy()?;
            kept.push(text.copy()?)?;
        }
    }
    Ok(kept)
}

// Whether an edge comes before a text, as both are read from a side, or is at that side of it.
fn is_at_most(side: Side, edge: &str, text: &str) -> bool
    ensures { result ≡ is_at_most_of (seen side edge.now) (seen side text.now) }
{
    side.order(edge, text).is_le()
}
