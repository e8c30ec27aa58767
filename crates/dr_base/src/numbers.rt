ghost use Rattle.std.specs.Prelude.{◌≡◌, ◌++◌, ◌∷◌, ◌<◌, [], IfOk, OnOk, OnErr, length, slice_set, slice_get};
ghost use Rattle.std.specs.Ordering.{int_eq};
ghost use Rattle.std.specs.Cmp.{partial_equiv_from_equiv, int_eq_equiv};
ghost use Rattle.std.specs.Cmp.Lexicographic.{pointwise, lists_equiv, lists_per};

use std::alloc::{AllocError, Global};
use std::marker::Model;

/// Numbers of 64 bits with a sign in order, as the metrics of a row. A contract sees the list of the numbers.
#[derive(Debug, Drop)]
pub struct Numbers(Vec<i64>);

impl Model for Numbers {
    ghost use Rattle.std.specs.Prelude.{ℤ, List};

    ghost Value = { List ℤ };

    ghost view = { λ n. n.0.items };
}

impl Numbers {
    /// No number. It takes no memory yet.
    pub fn new(alloc: Global) -> Numbers
        ensures { result ≡ [] }
    {
        Numbers(Vec::new(alloc))
    }

    /// The numbers of a vector, which takes no memory.
    pub fn from_vec(numbers: Vec<i64>) -> Numbers
        ensures { result ≡ numbers.items }
    {
        Numbers(numbers)
    }

    /// The numbers as a vector, which takes no memory.
    pub fn into_vec(self) -> Vec<i64>
        ensures { result.items ≡ self }
    {
        self.0
    }

    /// The numbers as a slice.
    pub fn as_slice(&self) -> &[i64]
        ensures { result.now ≡ self.now }
    {
        self.0.as_slice()
    }

    /// How many numbers there are.
    pub fn len(&self) -> usize
        ensures { result ≡ length self.now }
    {
        self.0.len()
    }

    /// The number at a place, from 0; none past the end.
    pub fn get(&self, place: usize) -> Option<i64>
        ensures { result ≡ slice_get self.now place }
    {
        self.0.get(place).copied()
    }

    /// Puts a number in the place of another; past the end nothing changes.
    pub fn set(&mut self, place: usize, number: i64)
        ensures { self.new ≡ slice_set self.old place number }
    {
        if let Some(slot) = self.0.get_mut(place) {
            *slot = number;
        }
    }

    /// Adds a number at the end. The only error is that memory ran out, and it leaves the numbers as they were. It takes
    /// constant time, spread over many.
    pub fn push(&mut self, number: i64) -> Result<(), AllocError>
        ensures ok { OnOk result (self.new ≡ self.old ++ number ∷ []) }
        ensures err { OnErr result (self.new ≡ self.old) }
    {
        self.0.push(number)?;
        Ok(())
    }

    /// Equal numbers in memory of their own. The only error is that memory ran out. It takes time by the numbers.
    pub fn copy(&self) -> Result<Numbers, AllocError>
        ensures { IfOk result (λ numbers. numbers ≡ self.now) }
    {
        let alloc = *self.0.allocator();
        Ok(Numbers(Vec::from_slice(alloc, self.as_slice())?))
    }
}

impl PartialEq for Numbers {
    ghost eq = { pointwise int_eq };

    ghost laws = { lists_per (partial_equiv_from_equiv int_eq_equiv) };

    fn eq(&self, other: &Numbers) -> bool {
        self.0 == other.0
    }
}

impl Eq for Numbers {
    ghost laws = { lists_equiv int_eq_equiv };
}
