ghost use Rattle.std.specs.Prelude.{◌≡◌, true, false, IfOk, OnOk};
ghost use Rattle.std.specs.List.{AllByRecursion};
ghost use Rattle.std.specs.Ordering.{is_lt, is_eq};
ghost use Rattle.dr_base.specs.Order.{key_cmp};
ghost use Rattle.dr_agg.specs.Rollup.{add_row, rollup, IsInOrder, IsRising};

use crate::inputs::copies;
use dr_agg::{Kind, combine_into};
use dr_base::Row;
use dr_fragment::RowRef;
use std::alloc::{AllocError, Global};
use std::cmp::Ordering;

// The rollup of rows that stand in the order of their keys.
pub(crate) fn rolled_up(
    alloc: Global,
    combines: bool,
    kinds: &[Kind],
    rows: &[RowRef],
) -> Result<Vec<Row>, AllocError>
    requires { IsInOrder rows.now }
    ensures { IfOk result (λ rolled. rolled.items ≡ rollup combines kinds.now rows.now) }
{
    if combines {
        return combined(alloc, kinds, rows);
    }
    let apart = copies(alloc, rows)?;
    Ok(apart)
}

// The same where rows of one key become one.
fn combined(alloc: Global, kinds: &[Kind], rows: &[RowRef]) -> Result<Vec<Row>, AllocError>
    requires { IsInOrder rows.now }
    ensures { IfOk result (λ combined. combined.items ≡ rollup true kinds.now rows.now) }
{
    let mut combined = Vec::new(alloc);
    for row in rows {
        add_last(alloc, kinds, &mut combined, row)?;
    }
    Ok(combined)
}

// Adds a row whose key is below none of rising rows: into the last one where it has the same key, and else behind it.
fn add_last(
    alloc: Global,
    kinds: &[Kind],
    rows: &mut Vec<Row>,
    row: &RowRef,
) -> Result<(), AllocError>
    requires rising { IsRising rows.old.items }
    requires behind { AllByRecursion (λ x. is_lt (key_cmp row.now.key x.key) ≡ false) rows.old.items }
    ensures { OnOk result (rows.new.items ≡ add_row true kinds.now rows.old.items row.now) }
{
    let len = rows.len();
    if len == 0 {
        rows.push(row.copy(alloc)?)?;
        return Ok(());
    }
    if !has_key_of(row, &rows[len - 1]) {
        rows.push(row.copy(alloc)?)?;
        return Ok(());
    }
    let metrics = row.metrics(alloc)?;
    let last = &mut rows[len - 1];
    combine_into(kinds, &mut last.metrics, &metrics)?;
    Ok(())
}

fn has_key_of(row: &RowRef, other: &Row) -> bool
    ensures { result ≡ is_eq (key_cmp row.now.key other.now.key) }
{
    match row.order(&RowRef::of_row(other)) {
        Ordering::Equal => true,
        Ordering::Less => false,
        Ordering::Greater => false,
    }
}
