ghost use Rattle.std.specs.Prelude.{◌≡◌, ◌<◌, true, length, OnOk};
ghost use Rattle.dr_agg.specs.Rollup.{AllFit};
ghost use Rattle.dr_answers.specs.Groups.{grouped_values};
ghost use Rattle.dr_rollup.specs.Entries.{HasKeyAt};
ghost use Rattle.dr_partial.specs.Grouped.{folds_alone, IsSound, Adds, CombinesAt};
ghost use Rattle.dr_partial.specs.Partial.{kinds_in};

use crate::reading::{combine_reading, readings};
use crate::selecting::are_values;
use dr_ask::{Aggregation, Dimension};
use dr_base::Text;
use dr_rollup::{Groups, KeyOf};
use std::alloc::AllocError;

/// Adds a row of these metrics to its group, or to a new one, and answers the place of the group. A known group takes no memory.
pub fn add(
    groups: &mut Groups,
    aggregations: &[Aggregation],
    group: &KeyOf<'_>,
    metrics: &[i64],
) -> Result<usize, AllocError>
    requires { IsSound (kinds_in aggregations.now) groups.old }
    ensures { OnOk result (Adds (kinds_in aggregations.now) groups.old (record { key = record { time = group.now.time; dims = group.now.dims.now }; metrics = folds_alone aggregations.now metrics.now }) groups.new) }
{
    if let Some(place) = groups.find(group) {
        combine(groups, place, aggregations, metrics);
        return Ok(place);
    }
    let alloc = groups.allocator();
    let key = group.copy(alloc)?;
    let values = readings(alloc, aggregations, metrics)?;
    let place = groups.len();
    groups.put(key, values)?;
    Ok(place)
}

/// Whether the group at a place is that of a bucket and of the values that a row has in some dimensions. No text is copied.
pub fn is_group_at(
    groups: &Groups,
    place: usize,
    bucket: i64,
    dimensions: &[Dimension],
    dims: &[Text],
) -> bool
    ensures { result ≡ true → HasKeyAt (record { time = bucket; dims = grouped_values dimensions.now dims.now }) groups.now place }
{
    match groups.get(place) {
        Some(group) => {
            group.key.time == bucket && are_values(dimensions, dims, group.key.dims.as_slice())
        }
        None => false,
    }
}

/// Combines a row of these metrics into the group at a place.
pub fn combine(groups: &mut Groups, place: usize, aggregations: &[Aggregation], metrics: &[i64])
    requires place { place < length groups.old }
    requires fits { AllFit (kinds_in aggregations.now) groups.old }
    ensures { CombinesAt (kinds_in aggregations.now) (folds_alone aggregations.now metrics.now) groups.old place groups.new }
{
    combine_reading(aggregations, groups.metrics_mut(place), metrics);
}
