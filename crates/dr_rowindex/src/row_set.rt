ghost use Rattle.std.specs.Prelude.{◌≡◌, ◌<◌, ◌≤◌, ◌&&◌, ◌||◌, ℕ, Bool, true, false, not, length, get_or, set, replicate, IfOk, MatchOption};
ghost use Rattle.dr_rowindex.specs.Truths.{Joined};

use crate::words::{
    add_bits, add_bits_of_five, add_bits_of_three, drop_bits, keep_bits, keep_bits_of_four,
    put_bits_of_five,
};
use dr_bits::{first_bit, is_set, with_bit};
use std::alloc::{AllocError, Global};
use std::marker::Model;

/// A set of some rows, which are counted from 0. A contract sees what is told of each row: true where it is in the set.
#[derive(Drop)]
pub struct RowSet {
    words: Vec<u64>,
    count: usize,
    // Whether a row may be in the set, so that nothing is done for one of which it is known that it has none.
    may_have: bool,
}

impl Model for RowSet {
    ghost use Rattle.std.specs.Prelude.{◌≡◌, ◌+◌, ◌/◌, List, Bool, false, length};
    ghost use Rattle.dr_rowindex.specs.Truths.{truths};
    ghost use Rattle.dr_rowindex.specs.Zeros.{AreZero};

    ghost Value = { List Bool };

    ghost view = { λ s. truths s.words.items s.count };

    ghost invariant = { λ s. (length s.words.items ≡ s.count / 64 + 1) × (s.may_have ≡ false → AreZero s.words.items) };
}

impl RowSet {
    /// None of so many rows. The only error is that memory ran out. It takes time and memory by the rows, a bit for each.
    pub fn none(alloc: Global, count: usize) -> Result<RowSet, AllocError>
        ensures { IfOk result (λ s. s ≡ replicate count false) }
    {
        let words = vec![in alloc; 0; count / 64 + 1]?;
        Ok(RowSet {
            words,
            count,
            may_have: false,
        })
    }

    /// All of so many rows. The only error is that memory ran out. It takes time and memory by the rows, a bit for each.
    pub fn all(alloc: Global, count: usize) -> Result<RowSet, AllocError>
        ensures { IfOk result (λ s. s ≡ replicate count true) }
    {
        let words = vec![in alloc; u64::MAX; count / 64 + 1]?;
        Ok(RowSet {
            words,
            count,
            may_have: true,
        })
    }

    /// The same rows. The only error is that memory ran out. It takes time and memory by the rows, a bit for each.
    pub fn copy(&self, alloc: Global) -> Result<RowSet, AllocError>
        ensures { IfOk result (λ s. s ≡ self.now) }
    {
        let mut words = Vec::with_capacity(alloc, self.words.len())?;
        words.extend_from_slice(self.words.as_slice())?;
        Ok(RowSet {
            words,
            count: self.count,
            may_have: self.may_have,
        })
    }

    /// Has the rows of another set in place of its own. It takes time by the rows, 64 at once.
    pub fn copy_from(&mut self, other: &RowSet)
        requires { length other.now ≡ length self.old }
        ensures { self.new ≡ other.now }
    {
        let words = self.words.as_mut_slice();
        words.copy_from_slice(other.words.as_slice());
        self.may_have = other.may_have;
    }

    /// Has the rows of another set that are in each of four more in place of its own. It takes time by the rows, 64 at once, less than by
    /// `copy_from` and `and_four`.
    pub fn copy_from_and_four(
        &mut self,
        other: &RowSet,
        one: &RowSet,
        two: &RowSet,
        three: &RowSet,
        four: &RowSet,
    )
        requires other { length other.now ≡ length self.old }
        requires one { length one.now ≡ length self.old }
        requires two { length two.now ≡ length self.old }
        requires three { length three.now ≡ length self.old }
        requires four { length four.now ≡ length self.old }
        ensures count { length self.new ≡ length self.old }
        ensures each { (i : ℕ) → i < length self.old → get_or self.new i false ≡ ((((get_or other.now i false && get_or one.now i false) && get_or two.now i false) && get_or three.now i false) && get_or four.now i false) }
    {
        self.may_have = put_bits_of_five(
            self.words.as_mut_slice(),
            other.words.as_slice(),
            one.words.as_slice(),
            two.words.as_slice(),
            three.words.as_slice(),
            four.words.as_slice(),
        );
    }

    /// Puts a row into the set. It takes constant time.
    pub fn insert(&mut self, row: usize)
        requires { row < length self.old }
        ensures { self.new ≡ set self.old row true }
    {
        let place = row / 64;
        self.words[place] = with_bit(self.words[place], row % 64);
        self.may_have = true;
    }

    /// Puts a row into the set where that is told. It takes constant time, the same whether it is.
    pub fn insert_if(&mut self, row: usize, told: bool)
        requires { row < length self.old }
        ensures passed { told ≡ true → self.new ≡ set self.old row true }
        ensures failed { told ≡ false → self.new ≡ self.old }
    {
        let place = row / 64;
        let word = self.words[place];
        let with = with_bit(word, row % 64);
        let next = if told { with } else { word };
        self.words[place] = next;
        self.may_have |= told;
    }

    /// Keeps the rows that are in another set too. It takes time by the rows, 64 at once, and constant time where it is known that there are
    /// none.
    pub fn and(&mut self, other: &RowSet)
        requires { length other.now ≡ length self.old }
        ensures { Joined (λ a b. a && b) other.now self.old self.new }
    {
        if self.may_have {
            self.may_have = keep_bits(self.words.as_mut_slice(), other.words.as_slice());
        }
    }

    /// Keeps the rows that are in each of four other sets too. It takes time by the rows, 64 at once, less than by one after the other, and
    /// constant time where it is known that there are none.
    pub fn and_four(&mut self, a: &RowSet, b: &RowSet, c: &RowSet, d: &RowSet)
        requires a { length a.now ≡ length self.old }
        requires b { length b.now ≡ length self.old }
        requires c { length c.now ≡ length self.old }
        requires d { length d.now ≡ length self.old }
        ensures count { length self.new ≡ length self.old }
        ensures each { (i : ℕ) → i < length self.old → get_or self.new i false ≡ ((((get_or self.old i false && get_or a.now i false) && get_or b.now i false) && get_or c.now i false) && get_or d.now i false) }
    {
        if self.may_have {
            self.may_have = keep_bits_of_four(
                self.words.as_mut_slice(),
                a.words.as_slice(),
                b.words.as_slice(),
                c.words.as_slice(),
                d.words.as_slice(),
            );
        }
    }

    /// Adds the rows of another set. It takes time by the rows, 64 at once, and constant time where it is known that the other one has none.
    pub fn or(&mut self, other: &RowSet)
        requires { length other.now ≡ length self.old }
        ensures { Joined (λ a b. a || b) other.now self.old self.new }
    {
        if other.may_have {
            add_bits(self.words.as_mut_slice(), other.words.as_slice());
            self.may_have = true;
        }
    }

    /// Adds the rows of another set that are in each of two more. It takes time by the rows, 64 at once, less than by `and` and `or`, and
    /// constant time where it is known that the first of these has none.
    pub fn or_and_two(&mut self, other: &RowSet, one: &RowSet, two: &RowSet)
        requires other { length other.now ≡ length self.old }
        requires one { length one.now ≡ length self.old }
        requires two { length two.now ≡ length self.old }
        ensures count { length self.new ≡ length self.old }
        ensures each { (i : ℕ) → i < length self.old → get_or self.new i false ≡ (get_or self.old i false || ((get_or other.now i false && get_or one.now i false) && get_or two.now i false)) }
    {
        if other.may_have {
            self.may_have = add_bits_of_three(
                self.words.as_mut_slice(),
                other.words.as_slice(),
                one.words.as_slice(),
                two.words.as_slice(),
            );
        }
    }

    /// Adds the rows of another set that are in each of four more. It takes time by the rows, 64 at once, less than by `and_four` and `or`,
    /// and constant time where it is known that the first of these has none.
    pub fn or_and_four(
        &mut self,
        other: &RowSet,
        one: &RowSet,
        two: &RowSet,
        three: &RowSet,
        four: &RowSet,
    )
        requires other { length other.now ≡ length self.old }
        requires one { length one.now ≡ length self.old }
        requires two { length two.now ≡ length self.old }
        requires three { length three.now ≡ length self.old }
        requires four { length four.now ≡ length self.old }
        ensures count { length self.new ≡ length self.old }
        ensures each { (i : ℕ) → i < length self.old → get_or self.new i false ≡ (get_or self.old i false || ((((get_or other.now i false && get_or one.now i false) && get_or two.now i false) && get_or three.now i false) && get_or four.now i false)) }
    {
        if other.may_have {
            self.may_have = add_bits_of_five(
                self.words.as_mut_slice(),
                other.words.as_slice(),
                one.words.as_slice(),
                two.words.as_slice(),
                three.words.as_slice(),
                four.words.as_slice(),
            );
        }
    }

    /// Takes out the rows that are in another set. It takes time by the rows, 64 at once, and constant time where it is known that one of the
    /// two has none.
    pub fn and_not(&mut self, other: &RowSet)
        requires { length other.now ≡ length self.old }
        ensures { Joined (λ a b. a && not b) other.now self.old self.new }
    {
        if self.may_have && other.may_have {
            self.may_have = drop_bits(self.words.as_mut_slice(), other.words.as_slice());
        }
    }

    /// Whether a row is in the set; one that isn't among the rows is not. It takes constant time.
    pub fn contains(&self, row: usize) -> bool
        ensures { result ≡ get_or self.now row false }
    {
        if row >= self.count {
            return false;
        }
        is_set(self.words[row / 64], row % 64)
    }

    /// The first row of the set from one on. It takes time by the rows before it, 64 at once.
    pub fn first_from(&self, row: usize) -> Option<usize>
        ensures { MatchOption result ((k : ℕ) → row ≤ k → get_or self.now k false ≡ false) (λ k. (row ≤ k) × (k < length self.now) × (get_or self.now k false ≡ true) × ((j : ℕ) → row ≤ j → j < k → get_or self.now j false ≡ false)) }
    {
        first_bit(self.words.as_slice(), row, self.count)
    }

    /// Whether it is known that no row is in the set: of one that was made by `none`, where no row was put in since, and where `and`,
    /// `and_four`, `and_not`, `or_and_two`, `or_and_four` or `copy_from_and_four` left none; `copy` and `copy_from` know it where the other
    /// one does. It takes constant time.
    pub fn has_none(&self) -> bool
        ensures { result ≡ true → (i : ℕ) → get_or self.now i false ≡ false }
    {
        !self.may_have
    }

    /// How many rows there are, in the set or not. It takes constant time.
    pub fn row_count(&self) -> usize
        ensures { result ≡ length self.now }
    {
        self.count
    }
}
