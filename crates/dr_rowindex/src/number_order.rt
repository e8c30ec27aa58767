ghost use Rattle.std.specs.Prelude.{◌≡◌, ◌<◌, ◌≤◌, ℕ, true, false, pos, get_or, int_lt, length, IfOk};
ghost use Rattle.std.specs.Ordering.{int_cmp};
ghost use Rattle.dr_rowindex.specs.Orders.{Adds, lies_between, reached, unended, NumbersRise};

use crate::row_order::{RowOrder, rows_counted};
use crate::row_set::RowSet;
use std::alloc::{AllocError, Global};
use std::cmp::Ordering;
use std::marker::Model;

/// Rows in the order of a number that each of them has, so that those whose numbers lie side by side stand so too. A contract sees
/// the number of each row.
#[derive(Drop)]
pub struct NumberOrder {
    numbers: Vec<i64>,
    order: RowOrder,
}

impl Model for NumberOrder {
    ghost use Rattle.std.specs.Prelude.{◌≡◌, List, ℤ, length};
    ghost use Rattle.dr_rowindex.specs.Orders.{NumbersRise};

    ghost Value = { List ℤ };

    ghost view = { λ o. o.numbers.items };

    ghost invariant = { λ o. (length o.order ≡ length o.numbers.items) × NumbersRise o.numbers.items o.order };
}

impl NumberOrder {
    /// The rows that have these numbers, the first of which is that of row 0. The only error is that memory ran out. It takes n log n
    /// in the rows, and memory by them and by a bit for each row and each 1,024 rows.
    pub fn of(alloc: Global, numbers: Vec<i64>) -> Result<NumberOrder, AllocError>
        ensures { IfOk result (λ o. o ≡ numbers.items) }
    {
        let mut rows = rows_counted(alloc, numbers.len())?;
        let seen = numbers.as_slice();
        rows.sort_by(
            |a: &usize, b: &usize| -> Ordering
                ensures { result ≡ int_cmp (get_or seen.entry.now a.now (pos 0)) (get_or seen.entry.now b.now (pos 0)) }
            { number_at(seen, *a).cmp(&number_at(seen, *b)) },
        )?;
        let order = RowOrder::of(alloc, rows)?;
        Ok(NumberOrder { numbers, order })
    }

    /// Adds the rows to a set whose number lies from one to before another, of which an absent one bounds nothing. It takes time by the
    /// logarithm of the rows and by those that are added, but for those in the middle of many, of which 1,024 take what [`RowSet::or`]
    /// takes.
    pub fn insert_between(&self, from: Option<i128>, to: Option<i128>, set: &mut RowSet)
        requires { length set.old ≡ length self.now }
        ensures { Adds (lies_between from to) self.now set.old set.new }
    {
        let numbers = self.numbers.as_slice();
        let rows = self.order.rows();
        let from = begin_of(numbers, rows, from);
        let to = end_of(numbers, rows, to);
        self.order.insert_between(from, to, set);
    }
}

// How many rows, which stand in the order of their numbers, have one before the first that is asked for.
fn begin_of(numbers: &[i64], rows: &[usize], from: Option<i128>) -> usize
    requires { NumbersRise numbers.now rows.now }
    ensures before { (j r : ℕ) → j < result → reached from (get_or numbers.now (get_or rows.now j r) (pos 0)) ≡ false }
    ensures behind { (j r : ℕ) → result ≤ j → j < length rows.now → reached from (get_or numbers.now (get_or rows.now j r) (pos 0)) ≡ true }
{
    match from {
        Some(number) => place_of(numbers, rows, number),
        None => 0,
    }
}

// How many have one before the end.
fn end_of(numbers: &[i64], rows: &[usize], to: Option<i128>) -> usize
    requires { NumbersRise numbers.now rows.now }
    ensures within { result ≤ length rows.now }
    ensures before { (j r : ℕ) → j < result → unended to (get_or numbers.now (get_or rows.now j r) (pos 0)) ≡ true }
    ensures behind { (j r : ℕ) → result ≤ j → j < length rows.now → unended to (get_or numbers.now (get_or rows.now j r) (pos 0)) ≡ false }
{
    match to {
        Some(number) => place_of(numbers, rows, number),
        None => rows.len(),
    }
}

// How many rows, which stand in the order of their numbers, have a number before this one.
fn place_of(numbers: &[i64], rows: &[usize], number: i128) -> usize
    requires { NumbersRise numbers.now rows.now }
    ensures within { result ≤ length rows.now }
    ensures before { (j r : ℕ) → j < result → int_lt (get_or numbers.now (get_or rows.now j r) (pos 0)) number ≡ true }
    ensures behind { (j r : ℕ) → result ≤ j → j < length rows.now → int_lt (get_or numbers.now (get_or rows.now j r) (pos 0)) number ≡ false }
{
    rows.partition_point(|row: &usize| i128::from(number_at(numbers, *row)) < number)
}

// The number of a row.
fn number_at(numbers: &[i64], row: usize) -> i64
    ensures { result ≡ get_or numbers.now row (pos 0) }
{
    match numbers.get(row) {
        Some(number) => *number,
        None => 0,
    }
}
