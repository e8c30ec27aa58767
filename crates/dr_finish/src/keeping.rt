ghost use Rattle.std.specs.Prelude.{◌≡◌, ◌++◌, ◌∷◌, [], Bool, false, IfOk, OnOk, filter, get_or, map, option_map};
ghost use Rattle.dr_base.specs.declared.row.Row.{Row as OneRow};
ghost use Rattle.dr_having.specs.Condition.{condition_in};
ghost use Rattle.dr_answers.specs.Given.{is_kept as is_kept_of};
ghost use Rattle.dr_finish.specs.RowOrder.{spread_row};

use crate::meeting::met;
use dr_ask::{Aggregations, GroupBy};
use dr_base::Row;
use std::alloc::AllocError;

/// The groups that a `having` keeps, as they come; all of them where there is none. No group is copied. The only error is
/// that memory ran out. It takes time by the groups and what is asked of each, in which the conditions on outputs with one value count
/// once, but where much is asked, as [`AskedHaving::select`](dr_having::AskedHaving::select); and memory by the groups and by the
/// conditions.
pub fn kept(
    by: &GroupBy,
    aggregations: &Aggregations,
    groups: Vec<Row>,
) -> Result<Vec<Row>, AllocError>
    ensures { IfOk result (λ kept. kept.items ≡ filter (λ g. is_kept_of (option_map condition_in by.now.having) (spread_row by.now.dimensions aggregations.now g)) groups.items) }
{
    match &by.having {
        Some(having) => {
            let alloc = *groups.allocator();
            let asked = having.asked_together(alloc, aggregations.numbers())?;
            let met = met(alloc, &asked, by, aggregations, groups.as_slice())?;
            kept_where(groups, met.as_slice())
        }
        None => Ok(groups),
    }
}

// The groups of which true is told, each at its place.
fn kept_where(groups: Vec<Row>, told: &[bool]) -> Result<Vec<Row>, AllocError>
    ensures { (test : OneRow → Bool) → told.now ≡ map test groups.items → IfOk result (λ kept. kept.items ≡ filter test groups.items) }
{
    let mut kept = Vec::new(*groups.allocator());
    let mut i = 0usize;
    for group in groups {
        put_where(is_told(told, i), &mut kept, group)?;
        i = i.saturating_add(1);
    }
    Ok(kept)
}

fn is_told(told: &[bool], i: usize) -> bool
    ensures { result ≡ get_or told.now i false }
{
    match told.get(i) {
        Some(truth) => *truth,
        None => false,
    }
}

// Puts a group behind others, where it is wanted.
fn put_where(wanted: bool, kept: &mut Vec<Row>, group: Row) -> Result<(), AllocError>
    ensures { OnOk result (kept.new.items ≡ kept.old.items ++ filter (λ g. wanted) (group ∷ [])) }
{
    if wanted {
        kept.push(group)?;
    }
    Ok(())
}
