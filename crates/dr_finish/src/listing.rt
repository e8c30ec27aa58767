ghost use Rattle.std.specs.Prelude.{◌≡◌, IfOk, map};
ghost use Rattle.dr_answers.specs.AnswerRefusal.{Answers};
ghost use Rattle.dr_partial.specs.Partial.{result_row};
ghost use Rattle.dr_finish.specs.Finished.{few_of};

use crate::bound::MAX_GROUPS;
use dr_answers::{AnswerError, ResultRow};
use dr_base::Row;
use dr_partial::Partial;
use std::alloc::{AllocError, Global};

/// The groups of a partial result, in the order of their keys; nothing of them is copied. Refusals: 81 `ResultTooLarge` where
/// there are over 100000.
pub fn listed(alloc: Global, partial: Partial) -> Result<Vec<ResultRow>, AnswerError>
    ensures { Answers (λ groups. groups.items) result (few_of (map result_row partial)) }
{
    if partial.len() > MAX_GROUPS {
        return Err(AnswerError::ResultTooLarge);
    }
    Ok(result_rows(alloc, partial.into_rows()?)?)
}

fn result_rows(alloc: Global, rows: Vec<Row>) -> Result<Vec<ResultRow>, AllocError>
    ensures { IfOk result (λ results. results.items ≡ map result_row rows.items) }
{
    let mut results = Vec::with_capacity(alloc, rows.len())?;
    for row in rows {
        results.push(result_row(row))?;
    }
    Ok(results)
}

/// A row of a partial result as a group.
pub fn result_row(row: Row) -> ResultRow
    ensures { result ≡ result_row row }
{
    let key = row.key;
    ResultRow {
        time: key.time,
        dims: key.dims,
        values: row.metrics,
    }
}
