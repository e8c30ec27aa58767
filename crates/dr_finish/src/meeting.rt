ghost use Rattle.std.specs.Prelude.{◌≡◌, ◌++◌, map, IfOk, OnOk};
ghost use Rattle.dr_having.specs.Asked.{asked_meets};
ghost use Rattle.dr_having.specs.declared.asked_having.AskedHaving.{AskedHaving as Asked};
ghost use Rattle.dr_finish.specs.Meeting.{row_meets};

use dr_ask::{Aggregations, GroupBy};
use dr_base::Row;
use dr_having::{AskedHaving, GroupOutputs};
use dr_outputs::{OutputNumbers, OutputTexts};
use dr_rowindex::lot_end;
use std::alloc::{AllocError, Global};

// Of how many groups it is asked together at most, of which each stands in the order of each output meanwhile.
const GROUPS_AT_ONCE: usize = 4096;

/// Of each group, whether it meets what is asked. The only error is that memory ran out. Where much is asked, it is asked of many groups at
/// once.
pub fn met(
    alloc: Global,
    asked: &AskedHaving,
    by: &GroupBy,
    aggregations: &Aggregations,
    groups: &[Row],
) -> Result<Vec<bool>, AllocError>
    ensures { IfOk result (λ met. met.items ≡ map (row_meets asked.now by.now.dimensions aggregations.now) groups.now) }
{
    if asked.is_asked_at_once() {
        met_at_once(alloc, asked, by, aggregations, groups)
    } else {
        met_one_by_one(alloc, asked, by, aggregations, groups)
    }
}

fn met_one_by_one(
    alloc: Global,
    asked: &AskedHaving,
    by: &GroupBy,
    aggregations: &Aggregations,
    groups: &[Row],
) -> Result<Vec<bool>, AllocError>
    ensures { IfOk result (λ met. met.items ≡ map (row_meets asked.now by.now.dimensions aggregations.now) groups.now) }
{
    let mut met = Vec::with_capacity(alloc, groups.len())?;
    for group in groups {
        met.push(meets(asked, by, aggregations, group))?;
    }
    Ok(met)
}

// Whether a group meets what is asked.
fn meets(asked: &AskedHaving, by: &GroupBy, aggregations: &Aggregations, group: &Row) -> bool
    ensures { result ≡ row_meets asked.now by.now.dimensions aggregations.now group.now }
{
    let dims = OutputTexts::new(group.key.dims.as_slice(), by.dimensions.numbers());
    let values = OutputNumbers::new(group.metrics.as_slice(), aggregations.numbers());
    asked.meets(&dims, &values)
}

fn met_at_once(
    alloc: Global,
    asked: &AskedHaving,
    by: &GroupBy,
    aggregations: &Aggregations,
    groups: &[Row],
) -> Result<Vec<bool>, AllocError>
    ensures { IfOk result (λ met. met.items ≡ map (row_meets asked.now by.now.dimensions aggregations.now) groups.now) }
{
    let count = groups.len();
    let mut met = Vec::with_capacity(alloc, count)?;
    let mut from = 0;
    while from < count {
        let to = lot_end(from, count, GROUPS_AT_ONCE);
        put_met(alloc, &mut met, asked, by, aggregations, &groups[from..to])?;
        from = to;
    }
    Ok(met)
}

// Puts that of more groups, of which it is asked at once, behind that of others.
fn put_met(
    alloc: Global,
    met: &mut Vec<bool>,
    asked: &AskedHaving,
    by: &GroupBy,
    aggregations: &Aggregations,
    groups: &[Row],
) -> Result<(), AllocError>
    ensures { OnOk result (met.new.items ≡ met.old.items ++ map (row_meets asked.now by.now.dimensions aggregations.now) groups.now) }
{
    let outputs = outputs_of(alloc, by, aggregations, groups)?;
    let told = asked.select(alloc, outputs.as_slice())?;
    for i in 0..groups.len() {
        met.push(told.contains(i))?;
    }
    Ok(())
}

// The outputs of each group.
fn outputs_of<'a>(
    alloc: Global,
    by: &'a GroupBy,
    aggregations: &'a Aggregations,
    groups: &'a [Row],
) -> Result<Vec<GroupOutputs<'a>>, AllocError>
    ensures { (asked : Asked) → IfOk result (λ outputs. map (λ g. asked_meets g.dims g.values asked) outputs.items ≡ map (row_meets asked by.now.dimensions aggregations.now) groups.now) }
{
    let mut outputs = Vec::with_capacity(alloc, groups.len())?;
    for group in groups {
        let dims = OutputTexts::new(group.key.dims.as_slice(), by.dimensions.numbers());
        let values = OutputNumbers::new(group.metrics.as_slice(), aggregations.numbers());
        outputs.push(GroupOutputs { dims, values })?;
    }
    Ok(outputs)
}
