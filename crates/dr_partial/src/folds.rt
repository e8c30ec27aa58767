ghost use Rattle.std.specs.Prelude.{◌≡◌, ◌<◌, length, OnOk};
ghost use Rattle.dr_agg.specs.Combination.{combine_columns, FitsColumns};
ghost use Rattle.dr_agg.specs.Rollup.{AllFit};
ghost use Rattle.dr_partial.specs.Grouped.{IsSound, Adds, CombinesAt};
ghost use Rattle.dr_partial.specs.Partial.{kinds_in};

use dr_ask::Aggregation;
use dr_base::Numbers;
use dr_rollup::{Groups, KeyOf};
use std::alloc::AllocError;

/// Adds what the aggregations fold to over some rows of a group to the group, or to a new one.
pub fn add_folds(
    groups: &mut Groups,
    aggregations: &[Aggregation],
    group: &KeyOf<'_>,
    folds: Numbers,
) -> Result<(), AllocError>
    requires sound { IsSound (kinds_in aggregations.now) groups.old }
    requires fits { FitsColumns (kinds_in aggregations.now) folds }
    ensures { OnOk result (Adds (kinds_in aggregations.now) groups.old (record { key = record { time = group.now.time; dims = group.now.dims.now }; metrics = folds }) groups.new) }
{
    if let Some(place) = groups.find(group) {
        combine_at(groups, place, aggregations, folds.as_slice());
        return Ok(());
    }
    let alloc = groups.allocator();
    let key = group.copy(alloc)?;
    groups.put(key, folds)
}

/// Combines folds into the group at a place.
pub fn combine_at(groups: &mut Groups, place: usize, aggregations: &[Aggregation], folds: &[i64])
    requires place { place < length groups.old }
    requires fits { AllFit (kinds_in aggregations.now) groups.old }
    requires folds { FitsColumns (kinds_in aggregations.now) folds.now }
    ensures { CombinesAt (kinds_in aggregations.now) folds.now groups.old place groups.new }
{
    combine_folds(aggregations, groups.metrics_mut(place), folds);
}

// Combines folds into others.
fn combine_folds(aggregations: &[Aggregation], values: &mut Numbers, folds: &[i64])
    requires values { FitsColumns (kinds_in aggregations.now) values.old }
    requires folds { FitsColumns (kinds_in aggregations.now) folds.now }
    ensures { values.new ≡ combine_columns (kinds_in aggregations.now) values.old folds.now }
{
    for (place, aggregation) in aggregations.iter().enumerate() {
        let combined = aggregation
            .kind
            .combine(values.as_slice()[place], folds[place]);
        values.set(place, combined);
    }
}
