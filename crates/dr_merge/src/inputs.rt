ghost use Rattle.std.specs.Prelude.{◌≡◌, ◌++◌, IfOk, OnOk, map};
ghost use Rattle.dr_agg.specs.Rollup.{all_rows};

use dr_base::Row;
use dr_fragment::{LyingRows, RowRef, SharedFragment};
use std::alloc::{AllocError, Global};

// The rows of each input, ready to be read.
pub(crate) fn ordered_inputs(
    alloc: Global,
    inputs: &[SharedFragment],
) -> Result<Vec<LyingRows<'_>>, AllocError>
    ensures { IfOk result (λ ordered. ordered.items ≡ map (λ f. f.rows) inputs.now) }
{
    let mut ordered = Vec::with_capacity(alloc, inputs.len())?;
    for input in inputs {
        ordered.push(input.ordered()?)?;
    }
    Ok(ordered)
}

// References to all rows, one input after another.
pub(crate) fn rows_of_all<'a>(
    alloc: Global,
    inputs: &'a [LyingRows<'_>],
) -> Result<Vec<RowRef<'a>>, AllocError>
    ensures { IfOk result (λ rows. rows.items ≡ all_rows inputs.now) }
{
    let mut rows = Vec::new(alloc);
    for input in inputs {
        push_rows(&mut rows, input)?;
    }
    Ok(rows)
}

fn push_rows<'a>(rows: &mut Vec<RowRef<'a>>, input: &'a LyingRows<'_>) -> Result<(), AllocError>
    ensures { OnOk result (rows.new.items ≡ rows.old.items ++ input.now) }
{
    rows.reserve(input.len())?;
    for i in 0..input.len() {
        rows.push(input.row(i))?;
    }
    Ok(())
}

// The rows in memory of their own.
pub(crate) fn copies(alloc: Global, rows: &[RowRef]) -> Result<Vec<Row>, AllocError>
    ensures { IfOk result (λ copies. copies.items ≡ rows.now) }
{
    let mut copies = Vec::with_capacity(alloc, rows.len())?;
    for row in rows {
        copies.push(row.copy(alloc)?)?;
    }
    Ok(copies)
}
