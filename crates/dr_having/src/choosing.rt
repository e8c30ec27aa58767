ghost use Rattle.std.specs.Prelude.{◌≡◌, not, map, IfOk};
ghost use Rattle.std.specs.List.{list_all};
ghost use Rattle.dr_rowindex.specs.Orders.{Tell};
ghost use Rattle.dr_having.specs.Asked.{asked_meets};
ghost use Rattle.dr_having.specs.LookUps.{is_among_at, is_found};
ghost use Rattle.dr_having.specs.OutputMeets.{output_meets, outputs_meet};

use crate::asked_having::AskedHaving;
use crate::asked_output::AskedOutput;
use crate::group_lot::GroupLot;
use crate::group_outputs::GroupOutputs;
use crate::number_look_up::NumberLookUp;
use crate::text_look_up::TextLookUp;
use dr_rowindex::{RowSet, asks_for_many};
use std::alloc::{AllocError, Global};

impl AskedHaving {
    /// Which of some groups meet it, told of each. The only error is that memory ran out.
    ///
    /// The groups are put in the order of the values of each output that is asked for 8 times or more, which takes n log n in the
    /// groups, and memory by them. Then each text, and each number at which what is asked of an aggregation changes, takes time by the
    /// logarithm of the groups and by the groups that it lets through, but for those in the middle of many, 64 at once; where an output
    /// is asked for more of them than a sixteenth of the groups, each value is looked up among them. Of the other outputs each group is
    /// asked by itself. What is asked is joined 64 groups at once.
    pub fn select<'a>(
        &self,
        alloc: Global,
        groups: &'a [GroupOutputs<'a>],
    ) -> Result<RowSet, AllocError>
        ensures { IfOk result (λ s. s ≡ map (λ g. asked_meets g.dims g.values self.now) groups.now) }
    {
        let lot = GroupLot::of(alloc, groups, self)?;
        let set = met(alloc, self, &lot)?;
        Ok(set)
    }
}

#[cycle(choosing)]
fn met(alloc: Global, asked: &AskedHaving, lot: &GroupLot<'_>) -> Result<RowSet, AllocError>
    ensures { IfOk result (λ s. Tell (λ g. asked_meets g.dims g.values asked.now) lot.now.groups.now s) }
{
    let mut set = holding(alloc, asked.outputs.as_slice(), lot)?;
    set.and(&met_by_none(alloc, asked.denied.as_slice(), lot)?);
    Ok(set)
}

// The groups that meet none of what is denied.
#[cycle(choosing)]
fn met_by_none(
    alloc: Global,
    denied: &[AskedHaving],
    lot: &GroupLot<'_>,
) -> Result<RowSet, AllocError>
    ensures { IfOk result (λ s. Tell (λ g. list_all not (map (asked_meets g.dims g.values) denied.now)) lot.now.groups.now s) }
{
    let mut set = RowSet::all(alloc, lot.groups.len())?;
    for asked in denied {
        set.and_not(&met(alloc, asked, lot)?);
    }
    Ok(set)
}

// The groups of which all is so that is asked of outputs.
fn holding(alloc: Global, outputs: &[AskedOutput], lot: &GroupLot<'_>) -> Result<RowSet, AllocError>
    ensures { IfOk result (λ s. Tell (λ g. outputs_meet g.dims g.values outputs.now) lot.now.groups.now s) }
{
    let mut set = RowSet::all(alloc, lot.groups.len())?;
    for output in outputs {
        set.and(&found(alloc, output, lot)?);
    }
    Ok(set)
}

// The groups of which it is so that is asked of one output.
fn found(alloc: Global, output: &AskedOutput, lot: &GroupLot<'_>) -> Result<RowSet, AllocError>
    ensures { IfOk result (λ s. Tell (λ g. output_meets g.dims g.values output.now) lot.now.groups.now s) }
{
    match output {
        AskedOutput::Number(look_up) => numbers_found(alloc, look_up, lot),
        AskedOutput::Text(look_up) => texts_found(alloc, look_up, lot),
        AskedOutput::NoText(look_up) => {
            let denied = texts_found(alloc, look_up, lot)?;
            let mut set = RowSet::all(alloc, lot.groups.len())?;
            set.and_not(&denied);
            Ok(set)
        }
    }
}

fn numbers_found(
    alloc: Global,
    look_up: &NumberLookUp,
    lot: &GroupLot<'_>,
) -> Result<RowSet, AllocError>
    ensures { IfOk result (λ s. Tell (λ g. is_among_at g.values look_up.now) lot.now.groups.now s) }
{
    let count = lot.groups.len();
    match lot.numbers_at(look_up.place) {
        Some(order) if !asks_for_many(look_up.steps.cut_count(), count) => {
            let mut set = RowSet::none(alloc, count)?;
            look_up.steps.insert_among(order, &mut set);
            Ok(set)
        }
        _ => numbers_found_by_groups(alloc, look_up, lot.groups),
    }
}

// The same groups, each asked by itself.
fn numbers_found_by_groups(
    alloc: Global,
    look_up: &NumberLookUp,
    groups: &[GroupOutputs<'_>],
) -> Result<RowSet, AllocError>
    ensures { IfOk result (λ s. Tell (λ g. is_among_at g.values look_up.now) groups.now s) }
{
    let mut set = RowSet::none(alloc, groups.len())?;
    for i in 0..groups.len() {
        if look_up.finds(&groups[i].values) {
            set.insert(i);
        }
    }
    Ok(set)
}

fn texts_found(
    alloc: Global,
    look_up: &TextLookUp,
    lot: &GroupLot<'_>,
) -> Result<RowSet, AllocError>
    ensures { IfOk result (λ s. Tell (λ g. is_found g.dims look_up.now) lot.now.groups.now s) }
{
    let count = lot.groups.len();
    match lot.texts_at(look_up.place) {
        Some(order) if !asks_for_many(look_up.texts.as_texts().len(), count) => {
            let mut set = RowSet::none(alloc, count)?;
            order.insert_among(alloc, &look_up.texts, &mut set)?;
            Ok(set)
        }
        _ => texts_found_by_groups(alloc, look_up, lot.groups),
    }
}

// The same groups, each asked by itself.
fn texts_found_by_groups(
    alloc: Global,
    look_up: &TextLookUp,
    groups: &[GroupOutputs<'_>],
) -> Result<RowSet, AllocError>
    ensures { IfOk result (λ s. Tell (λ g. is_found g.dims look_up.now) groups.now s) }
{
    let mut set = RowSet::none(alloc, groups.len())?;
    for i in 0..groups.len() {
        if look_up.finds(&groups[i].dims) {
            set.insert(i);
        }
    }
    Ok(set)
}
