ghost use Rattle.std.specs.Prelude.{◌≡◌, ◌<◌, ◌∷◌, ◌++◌, [], length, map, IfSome, IfOk, OnOk};
ghost use Rattle.dr_agg.specs.Combination.{combine_columns};
ghost use Rattle.dr_agg.specs.Rollup.{AllFit};
ghost use Rattle.dr_ask.specs.Once.{asked_once};
ghost use Rattle.dr_answers.specs.Fold.{folds};
ghost use Rattle.dr_answers.specs.Groups.{bucket as bucket_of};
ghost use Rattle.dr_image.specs.Table.{row_at};
ghost use Rattle.dr_columns.specs.Rows.{key_at};
ghost use Rattle.dr_rollup.specs.Entries.{HasKeyAt, NoneHas};
ghost use Rattle.dr_partial.specs.Grouped.{IsSound, Adds, CombinesAt};
ghost use Rattle.dr_partial.specs.Known.{AreKnown, KeepsKeys, group_in, folds_read};
ghost use Rattle.dr_partial.specs.Partial.{kinds_in, alone};

use crate::known::Known;
use crate::selecting::dimensions;
use crate::source::Source;
use dr_base::{Numbers, Text};
use dr_columns::{Reading, agree, read_group, slot, slot_count};
use dr_rollup::{Groups, KeyOf};
use std::alloc::{AllocError, Global};

/// Adds a row of an image that is selected and lies in the bucket that starts there. Where a row of the same numbers was added
/// before, its group is mostly found by them, and else by the texts. `group` is memory to use again.
pub fn add_selected_at(
    groups: &mut Groups,
    source: &Source<'_>,
    known: &mut Vec<Known>,
    group: &mut Vec<Text>,
    bucket: i64,
    i: usize,
) -> Result<(), AllocError>
    requires within { i < length source.now.view.now.times }
    requires bucket { bucket ≡ bucket_of (asked_once source.now.query.now) (key_at source.now.view.now i).time }
    requires sound { IsSound (kinds_in (asked_once source.now.query.now).aggregations) groups.old }
    requires known { AreKnown (asked_once source.now.query.now) source.now.view.now groups.old known.old.items }
    ensures adds { OnOk result (Adds (kinds_in (asked_once source.now.query.now).aggregations) groups.old (alone (asked_once source.now.query.now) (row_at source.now.view.now i)) groups.new) }
    ensures known { OnOk result (AreKnown (asked_once source.now.query.now) source.now.view.now groups.new known.new.items) }
{
    let slot = slot(source.columns.as_slice(), known.len(), i);
    if let Some(place) = place_known(groups, source, known.as_slice(), slot, bucket, i) {
        combine_at(groups, place, source, i);
        return Ok(());
    }
    let place = add_found(groups, source, group, bucket, i)?;
    note(
        groups,
        source,
        known,
        slot,
        Known {
            bucket,
            row: i,
            place,
        },
    )
}

// The place of the group of a row, where a row of the same numbers was noted in its slot.
fn place_known(
    groups: &Groups,
    source: &Source<'_>,
    known: &[Known],
    slot: usize,
    bucket: i64,
    i: usize,
) -> Option<usize>
    requires { AreKnown (asked_once source.now.query.now) source.now.view.now groups.now known.now }
    ensures { IfSome result (HasKeyAt (group_in (asked_once source.now.query.now) source.now.view.now bucket i) groups.now) }
{
    let Some(noted) = known.get(slot) else {
        return None;
    };
    if noted.bucket == bucket && agree(source.columns.as_slice(), noted.row, i) {
        Some(noted.place)
    } else {
        None
    }
}

// Combines a row into the group at a place.
fn combine_at(groups: &mut Groups, place: usize, source: &Source<'_>, i: usize)
    requires place { place < length groups.old }
    requires fits { AllFit (kinds_in (asked_once source.now.query.now).aggregations) groups.old }
    ensures { CombinesAt (kinds_in (asked_once source.now.query.now).aggregations) (folds (asked_once source.now.query.now).aggregations (row_at source.now.view.now i ∷ [])) groups.old place groups.new }
{
    combine_read(source.readings.as_slice(), groups.metrics_mut(place), i);
}

// Combines what is read of a row into the values of a group.
fn combine_read(readings: &[Reading<'_>], values: &mut Numbers, i: usize)
    requires { length values.old ≡ length readings.now }
    ensures { values.new ≡ combine_columns (map (λ r. r.kind) readings.now) values.old (folds_read readings.now i) }
{
    for (place, reading) in readings.iter().enumerate() {
        let combined = reading
            .kind
            .combine(values.as_slice()[place], reading.alone(i));
        values.set(place, combined);
    }
}

// Adds a row, whose group is found by its texts, and answers the place of the group.
fn add_found(
    groups: &mut Groups,
    source: &Source<'_>,
    group: &mut Vec<Text>,
    bucket: i64,
    i: usize,
) -> Result<usize, AllocError>
    requires within { i < length source.now.view.now.times }
    requires sound { IsSound (kinds_in (asked_once source.now.query.now).aggregations) groups.old }
    ensures adds { OnOk result (Adds (kinds_in (asked_once source.now.query.now).aggregations) groups.old (record { key = group_in (asked_once source.now.query.now) source.now.view.now bucket i; metrics = folds (asked_once source.now.query.now).aggregations (row_at source.now.view.now i ∷ []) }) groups.new) }
    ensures place { IfOk result (HasKeyAt (group_in (asked_once source.now.query.now) source.now.view.now bucket i) groups.new) }
    ensures keeps { OnOk result (KeepsKeys groups.old groups.new) }
{
    let alloc = groups.allocator();
    read_group(alloc, source.view, dimensions(source.query), i, group)?;
    let key = KeyOf {
        time: bucket,
        dims: group.as_slice(),
    };
    if let Some(place) = groups.find(&key) {
        combine_at(groups, place, source, i);
        return Ok(place);
    }
    let place = groups.len();
    put_read(groups, &key, source, i)?;
    Ok(place)
}

// Adds a group of a row.
fn put_read(
    groups: &mut Groups,
    group: &KeyOf<'_>,
    source: &Source<'_>,
    i: usize,
) -> Result<(), AllocError>
    requires { NoneHas (record { time = group.now.time; dims = group.now.dims.now }) groups.old }
    ensures { OnOk result (groups.new ≡ groups.old ++ record { key = record { time = group.now.time; dims = group.now.dims.now }; metrics = folds (asked_once source.now.query.now).aggregations (row_at source.now.view.now i ∷ []) } ∷ []) }
{
    let alloc = groups.allocator();
    let key = group.copy(alloc)?;
    let values = values_read(alloc, source, i)?;
    groups.put(key, values)
}

// What each aggregation folds to over a row alone.
fn values_read(alloc: Global, source: &Source<'_>, i: usize) -> Result<Numbers, AllocError>
    ensures { IfOk result (λ values. values ≡ folds (asked_once source.now.query.now).aggregations (row_at source.now.view.now i ∷ [])) }
{
    let mut values = Vec::with_capacity(alloc, source.readings.len())?;
    for reading in source.readings.as_slice() {
        values.push(reading.alone(i))?;
    }
    Ok(Numbers::from_vec(values))
}

// Notes where the group of a row stands, in its slot. The first one is noted in each slot.
fn note(
    groups: &Groups,
    source: &Source<'_>,
    known: &mut Vec<Known>,
    slot: usize,
    noted: Known,
) -> Result<(), AllocError>
    requires known { AreKnown (asked_once source.now.query.now) source.now.view.now groups.now known.old.items }
    requires noted { HasKeyAt (group_in (asked_once source.now.query.now) source.now.view.now noted.bucket noted.row) groups.now noted.place }
    ensures { OnOk result (AreKnown (asked_once source.now.query.now) source.now.view.now groups.now known.new.items) }
{
    if known.is_empty() {
        let alloc = groups.allocator();
        *known = vec![in alloc; noted; slot_count(source.columns.as_slice())]?;
        return Ok(());
    }
    if slot < known.len() {
        known[slot] = noted;
    }
    Ok(())
}
