ghost use Rattle.std.specs.Prelude.{◌≡◌, ◌≤◌, length, map, slice_range, IfOk};
ghost use Rattle.dr_filter.specs.Condition.{condition_in, matches};
ghost use Rattle.dr_select.specs.Rows.{key_seen};

use crate::choosing::select;
use dr_base::Row;
use dr_filter::Filter;
use dr_rollup::{Arrived, KeyOf};
use dr_rowindex::RowSet;
use std::alloc::{AllocError, Global};

/// What [`select`] gives of rows that were made. Error and cost are those of `select`.
pub fn select_rows(alloc: Global, filter: &Filter, rows: &[Row]) -> Result<RowSet, AllocError>
    ensures { IfOk result (λ s. s ≡ map (λ r. matches r.key.time r.key.dims (condition_in filter.now)) rows.now) }
{
    let keys = keys_of(alloc, rows)?;
    let set = select(alloc, filter, keys.as_slice())?;
    Ok(set)
}

/// What [`select`] gives of the rows of an index from a place on, up to another. Error and cost are those of `select`.
pub fn select_arrived(
    alloc: Global,
    filter: &Filter,
    rows: &Arrived<'_>,
    from: usize,
    to: usize,
) -> Result<RowSet, AllocError>
    requires some { from ≤ to }
    requires within { to ≤ length rows.now }
    ensures { IfOk result (λ s. s ≡ map (λ r. matches r.key.time r.key.dims (condition_in filter.now)) (slice_range rows.now from to)) }
{
    let keys = arrived_keys(alloc, rows, from, to)?;
    let set = select(alloc, filter, keys.as_slice())?;
    Ok(set)
}

fn arrived_keys<'a>(
    alloc: Global,
    rows: &Arrived<'a>,
    from: usize,
    to: usize,
) -> Result<Vec<KeyOf<'a>>, AllocError>
    requires some { from ≤ to }
    requires within { to ≤ length rows.now }
    ensures { IfOk result (λ keys. map key_seen keys.items ≡ map (λ r. r.key) (slice_range rows.now from to)) }
{
    let mut keys = Vec::with_capacity(alloc, to - from)?;
    for i in from..to {
        let (time, dims, _) = rows.row(i);
        keys.push(KeyOf { time, dims })?;
    }
    Ok(keys)
}

fn keys_of<'a>(alloc: Global, rows: &'a [Row]) -> Result<Vec<KeyOf<'a>>, AllocError>
    ensures { IfOk result (λ keys. map key_seen keys.items ≡ map (λ r. r.key) rows.now) }
{
    let mut keys = Vec::with_capacity(alloc, rows.len())?;
    for row in rows {
        let time = row.key.time;
        let dims = row.key.dims.as_slice();
        keys.push(KeyOf { time, dims })?;
    }
    Ok(keys)
}
