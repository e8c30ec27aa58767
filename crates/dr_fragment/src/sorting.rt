ghost use Rattle.std.specs.Prelude.{◌≡◌, IfOk, OnOk, OnErr};
ghost use Rattle.std.specs.List.Sorted.{IsPermutation, IsSortedBy, IsStableBy};
ghost use Rattle.std.specs.Ordering.{is_lt};
ghost use Rattle.dr_base.specs.Order.{key_cmp};
ghost use Rattle.dr_rollup.specs.OpenRows.{in_order};

use crate::row_ref::RowRef;
use dr_rollup::Arrived;
use std::alloc::AllocError;
use std::cmp::Ordering;

/// Puts rows into the order of their keys; those of one key stay in their order. The only error is that memory ran out, and it
/// leaves the rows as they were. It takes the time that sorting takes, and memory for half as many references.
pub fn sort(rows: &mut Vec<RowRef<'_>>) -> Result<(), AllocError>
    ensures moved { IsPermutation rows.old.items rows.new.items }
    ensures sorted { OnOk result (IsSortedBy (λ a b. is_lt (key_cmp a.key b.key)) rows.new.items) }
    ensures stable { OnOk result (IsStableBy (λ a b. is_lt (key_cmp a.key b.key)) rows.old.items rows.new.items) }
    ensures err { OnErr result (rows.new.items ≡ rows.old.items) }
{
    rows.sort_by(
        |a: &RowRef, b: &RowRef| -> Ordering
            ensures { result ≡ key_cmp a.now.key b.now.key }
        { a.order(b) },
    )?;
    Ok(())
}

// References to the rows of an open index, in the order of their keys.
pub(crate) fn sorted<'a>(arrived: &Arrived<'a>) -> Result<Vec<RowRef<'a>>, AllocError>
    ensures { IfOk result (λ rows. rows.items ≡ in_order arrived.now) }
{
    let mut rows = references(arrived)?;
    sort(&mut rows)?;
    Ok(rows)
}

// References to the rows of an open index, as they came.
fn references<'a>(arrived: &Arrived<'a>) -> Result<Vec<RowRef<'a>>, AllocError>
    ensures { IfOk result (λ rows. rows.items ≡ arrived.now) }
{
    let mut rows = Vec::with_capacity(arrived.allocator(), arrived.len())?;
    for i in 0..arrived.len() {
        let (time, dims, metrics) = arrived.row(i);
        rows.push(RowRef::of_parts(time, dims, metrics))?;
    }
    Ok(rows)
}
