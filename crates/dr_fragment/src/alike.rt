ghost use Rattle.std.specs.Prelude.{◌≡◌, ◌↔◌, [], ◌∷◌, drop, IfSome, IsNone, IsTrue};
ghost use Rattle.std.specs.List.{AllByRecursion};
ghost use Rattle.std.specs.Ordering.{eq_by_cmp};
ghost use Rattle.dr_base.specs.Order.{key_cmp};
ghost use Rattle.dr_agg.specs.Rollup.{rows_at};
ghost use Rattle.dr_fragment.specs.Alike.{AreAlike};

use crate::lying_rows::LyingRows;
use crate::row_ref::RowRef;
use std::cmp::Ordering;

// Whether each key has the same rows in both, in the same order. It takes no memory, and the product of the numbers of rows.
pub(crate) fn are_alike<'a>(rows: &LyingRows<'a>, others: &LyingRows<'a>) -> bool
    ensures { IsTrue result ↔ AreAlike rows.now others.now }
{
    have_alike(rows, rows, others) && have_alike(others, rows, others)
}

// Whether the key of each of these has the same rows in both.
fn have_alike<'a>(keys: &LyingRows<'a>, rows: &LyingRows<'a>, others: &LyingRows<'a>) -> bool
    ensures { IsTrue result ↔ AllByRecursion (λ r. rows_at r.key rows.now ≡ rows_at r.key others.now) keys.now }
{
    for i in 0..keys.len() {
        if !is_alike(&keys.row(i), rows, others) {
            return false;
        }
    }
    true
}

// Whether the key of a row has the same rows in both.
fn is_alike(row: &RowRef, rows: &LyingRows, others: &LyingRows) -> bool
    ensures { IsTrue result ↔ (rows_at row.now.key rows.now ≡ rows_at row.now.key others.now) }
{
    let mut next = 0;
    for i in 0..rows.len() {
        let here = rows.row(i);
        if has_key_of(row, &here) {
            let Some((there, behind)) = next_of(row, others, next) else {
                return false;
            };
            if !here.equals(&there) {
                return false;
            }
            next = behind;
        }
    }
    match next_of(row, others, next) {
        Some(_) => false,
        None => true,
    }
}

// From a place on, the first row with the key of this one, and the place behind it.
fn next_of<'a>(row: &RowRef, rows: &'a LyingRows<'_>, from: usize) -> Option<(RowRef<'a>, usize)>
    ensures found { IfSome result (λ r. rows_at row.now.key (drop from rows.now) ≡ r.0 ∷ rows_at row.now.key (drop r.1 rows.now)) }
    ensures none { IsNone result → rows_at row.now.key (drop from rows.now) ≡ [] }
{
    for i in from..rows.len() {
        let here = rows.row(i);
        if has_key_of(row, &here) {
            return Some((here, i + 1));
        }
    }
    None
}

fn has_key_of(row: &RowRef, other: &RowRef) -> bool
    ensures { result ≡ eq_by_cmp key_cmp row.now.key other.now.key }
{
    match row.order(other) {
        Ordering::Equal => true,
        Ordering::Less => false,
        Ordering::Greater => false,
    }
}
