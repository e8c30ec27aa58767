ghost use Rattle.std.specs.Prelude.{OnOk};
ghost use Rattle.dr_agg.specs.Combination.{FitsColumns};
ghost use Rattle.dr_agg.specs.Rollup.{AllFit};
ghost use Rattle.dr_partial.specs.Grouped.{IsSound, Adds, AddsEach};
ghost use Rattle.dr_partial.specs.Partial.{kinds_in};

use crate::folds::combine_at;
use dr_ask::Aggregation;
use dr_base::Row;
use dr_rollup::{Groups, KeyOf};
use std::alloc::AllocError;

/// Adds each of some groups to the group of its key, or as a new one.
pub fn add_groups(
    groups: &mut Groups,
    aggregations: &[Aggregation],
    others: Groups,
) -> Result<(), AllocError>
    requires sound { IsSound (kinds_in aggregations.now) groups.old }
    requires fit { AllFit (kinds_in aggregations.now) others }
    ensures { OnOk result (AddsEach (kinds_in aggregations.now) groups.old others groups.new) }
{
    for group in others.into_rows() {
        add_group(groups, aggregations, group)?;
    }
    Ok(())
}

// Adds a group to the group of its key, or as a new one.
fn add_group(
    groups: &mut Groups,
    aggregations: &[Aggregation],
    group: Row,
) -> Result<(), AllocError>
    requires sound { IsSound (kinds_in aggregations.now) groups.old }
    requires fits { FitsColumns (kinds_in aggregations.now) group.metrics }
    ensures { OnOk result (Adds (kinds_in aggregations.now) groups.old group groups.new) }
{
    let key = KeyOf {
        time: group.key.time,
        dims: group.key.dims.as_slice(),
    };
    if let Some(place) = groups.find(&key) {
        combine_at(groups, place, aggregations, group.metrics.as_slice());
        return Ok(());
    }
    groups.put(group.key, group.metrics)
}
