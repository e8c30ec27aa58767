ghost use Rattle.std.specs.Prelude.{OnOk};
ghost use Rattle.std.specs.List.{AllByRecursion};
ghost use Rattle.dr_ask.specs.Once.{asked_once};
ghost use Rattle.dr_time.specs.Instant.{IsInstant};
ghost use Rattle.dr_partial.specs.Grouped.{IsSound, AddsAll};
ghost use Rattle.dr_partial.specs.Partial.{kinds_in};

use crate::index::add_index;
use crate::rows::add_rows;
use crate::views::add_view;
use dr_ask::Query;
use dr_fragment::{Form, SharedFragment};
use dr_rollup::Groups;
use std::alloc::AllocError;

/// Adds the rows of a range as a snapshot holds it.
pub fn add_range(
    groups: &mut Groups,
    query: &Query,
    fragment: &SharedFragment,
) -> Result<(), AllocError>
    requires instants { AllByRecursion (λ r. IsInstant r.key.time) fragment.now.rows }
    requires sound { IsSound (kinds_in (asked_once query.now).aggregations) groups.old }
    ensures { OnOk result (AddsAll (asked_once query.now) groups.old fragment.now.rows groups.new) }
{
    let mut group = Vec::new(groups.allocator());
    match fragment.form() {
        Form::Rows(rows) => add_rows(groups, &mut group, query, rows),
        Form::Image(view) => add_view(groups, query, &view),
        Form::Index(index) => add_index(groups, &mut group, query, index),
    }
}
