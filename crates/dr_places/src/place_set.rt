ghost use Rattle.std.specs.Prelude.{◌≡◌, ◌≢◌, ◌<◌, ◌+◌, ◌/◌, ℕ, true, length, replicate, IfOk};
ghost use Rattle.dr_places.specs.Places.{truth_in};

use dr_bits::with_bit;
use std::alloc::{AllocError, Global};
use std::marker::Model;

/// A set of places of a text, and of its end, a bit for each. A contract sees its words.
#[derive(Drop)]
pub struct PlaceSet(Vec<u64>);

impl Model for PlaceSet {
    ghost use Rattle.std.specs.Prelude.{List, ℕ};

    ghost Value = { List ℕ };

    ghost view = { λ s. s.0.items };
}

impl PlaceSet {
    // None of the places of a text of so many characters, with one word more than there is a place in.
    pub fn none(alloc: Global, count: usize) -> Result<PlaceSet, AllocError>
        ensures { IfOk result (λ s. s ≡ replicate (count / 64 + 2) 0) }
    {
        let words = vec![in alloc; 0; count / 64 + 2]?;
        Ok(PlaceSet(words))
    }

    // Puts a place into the set.
    pub fn insert(&mut self, place: usize)
        requires { place / 64 < length self.old }
        ensures count { length self.new ≡ length self.old }
        ensures same { truth_in self.new place ≡ true }
        ensures others { (k : ℕ) → k ≢ place → truth_in self.new k ≡ truth_in self.old k }
    {
        let word = place / 64;
        self.0[word] = with_bit(self.0[word], place % 64);
    }

    pub fn words(&self) -> &[u64]
        ensures { result.now ≡ self.now }
    {
        self.0.as_slice()
    }
}
