ghost use Rattle.std.specs.Prelude.{◌≡◌, ◌∷◌, [], Some, true, map, option_map, IfOk, OnOk};
ghost use Rattle.std.specs.List.{AllByRecursion, flat_map};
ghost use Rattle.dr_time.specs.Instant.{IsInstant};
ghost use Rattle.dr_schema.specs.Fits.{FitsSchema};
ghost use Rattle.dr_rollup.specs.Unrolled.{unrolled, contributions};
ghost use Rattle.dr_answers.specs.Selection.{passes as passes_of, selects};
ghost use Rattle.dr_filter.specs.Condition.{condition_in};
ghost use Rattle.dr_ask.specs.Once.{asked_once};
ghost use Rattle.dr_partial.specs.Grouped.{IsSound, AddsAll};
ghost use Rattle.dr_partial.specs.Partial.{kinds_in};

use crate::at_once::is_told;
use crate::rows::add_selected;
use crate::selecting::is_selected;
use dr_ask::Query;
use dr_base::{Event, Text};
use dr_filter::Filter;
use dr_fragment::SharedEvent;
use dr_rollup::{Groups, KeyOf, push_contributions};
use dr_rowindex::RowSet;
use dr_schema::{Metric, Schema};
use dr_select::{filter_of_many, lot_end, select};
use std::alloc::{AllocError, Global};

/// Adds the events of some pieces, each as a row of its own, one piece after another. `group` is memory to use again.
pub fn add_event_pieces(
    groups: &mut Groups,
    group: &mut Vec<Text>,
    query: &Query,
    schema: &Schema,
    pieces: &[&[SharedEvent]],
) -> Result<(), AllocError>
    requires fit { AllByRecursion (FitsSchema schema.now) (flat_map (λ p. p.now) pieces.now) }
    requires sound { IsSound (kinds_in (asked_once query.now).aggregations) groups.old }
    ensures { OnOk result (AddsAll (asked_once query.now) groups.old (map (unrolled schema.now) (flat_map (λ p. p.now) pieces.now)) groups.new) }
{
    let mut metrics = Vec::new(*group.allocator());
    for piece in pieces {
        add_events(groups, group, &mut metrics, query, schema, piece)?;
    }
    Ok(())
}

/// Adds the events of a piece. `metrics` is memory to use again.
fn add_events(
    groups: &mut Groups,
    group: &mut Vec<Text>,
    metrics: &mut Vec<i64>,
    query: &Query,
    schema: &Schema,
    events: &[SharedEvent],
) -> Result<(), AllocError>
    requires fit { AllByRecursion (FitsSchema schema.now) events.now }
    requires sound { IsSound (kinds_in (asked_once query.now).aggregations) groups.old }
    ensures { OnOk result (AddsAll (asked_once query.now) groups.old (map (unrolled schema.now) events.now) groups.new) }
{
    match filter_of_many(&query.filter) {
        Some(filter) => add_at_once(groups, group, metrics, query, filter, schema, events),
        None => add_each(groups, group, metrics, query, schema, events),
    }
}

// Adds events one by one.
fn add_each(
    groups: &mut Groups,
    group: &mut Vec<Text>,
    metrics: &mut Vec<i64>,
    query: &Query,
    schema: &Schema,
    events: &[SharedEvent],
) -> Result<(), AllocError>
    requires fit { AllByRecursion (FitsSchema schema.now) events.now }
    requires sound { IsSound (kinds_in (asked_once query.now).aggregations) groups.old }
    ensures { OnOk result (AddsAll (asked_once query.now) groups.old (map (unrolled schema.now) events.now) groups.new) }
{
    for shared in events {
        add_event(groups, group, metrics, query, schema, shared.event())?;
    }
    Ok(())
}

// Adds events, of which a filter is asked many at once.
fn add_at_once(
    groups: &mut Groups,
    group: &mut Vec<Text>,
    metrics: &mut Vec<i64>,
    query: &Query,
    filter: &Filter,
    schema: &Schema,
    events: &[SharedEvent],
) -> Result<(), AllocError>
    requires filter { option_map condition_in query.now.filter ≡ Some (condition_in filter.now) }
    requires fit { AllByRecursion (FitsSchema schema.now) events.now }
    requires sound { IsSound (kinds_in (asked_once query.now).aggregations) groups.old }
    ensures { OnOk result (AddsAll (asked_once query.now) groups.old (map (unrolled schema.now) events.now) groups.new) }
{
    let count = events.len();
    let mut from = 0;
    while from < count {
        let to = lot_end(from, count);
        add_lot(
            groups,
            group,
            metrics,
            query,
            filter,
            schema,
            &events[from..to],
        )?;
        from = to;
    }
    Ok(())
}

// Adds events of which the filter is asked at once.
fn add_lot(
    groups: &mut Groups,
    group: &mut Vec<Text>,
    metrics: &mut Vec<i64>,
    query: &Query,
    filter: &Filter,
    schema: &Schema,
    events: &[SharedEvent],
) -> Result<(), AllocError>
    requires filter { option_map condition_in query.now.filter ≡ Some (condition_in filter.now) }
    requires fit { AllByRecursion (FitsSchema schema.now) events.now }
    requires sound { IsSound (kinds_in (asked_once query.now).aggregations) groups.old }
    ensures { OnOk result (AddsAll (asked_once query.now) groups.old (map (unrolled schema.now) events.now) groups.new) }
{
    let told = events_told(*group.allocator(), filter, schema, events)?;
    for i in 0..events.len() {
        add_told_event(
            groups,
            group,
            metrics,
            query,
            schema,
            told.contains(i),
            events[i].event(),
        )?;
    }
    Ok(())
}

// Of each event, whether a filter passes its row.
fn events_told(
    alloc: Global,
    filter: &Filter,
    schema: &Schema,
    events: &[SharedEvent],
) -> Result<RowSet, AllocError>
    requires { AllByRecursion (FitsSchema schema.now) events.now }
    ensures { IfOk result (λ told. told ≡ map (λ e. passes_of (Some (condition_in filter.now)) (unrolled schema.now e).key) events.now) }
{
    let mut keys = Vec::with_capacity(alloc, events.len())?;
    for shared in events {
        let event = shared.event();
        let time = schema.query_granularity().truncate(event.time);
        let dims = event.dims.as_slice();
        keys.push(KeyOf { time, dims })?;
    }
    let told = select(alloc, filter, keys.as_slice())?;
    Ok(told)
}

// Adds an event, where the filter is known to pass its row.
fn add_told_event(
    groups: &mut Groups,
    group: &mut Vec<Text>,
    metrics: &mut Vec<i64>,
    query: &Query,
    schema: &Schema,
    passed: bool,
    event: &Event,
) -> Result<(), AllocError>
    requires passed { passed ≡ passes_of (option_map condition_in query.now.filter) (unrolled schema.now event.now).key }
    requires fits { FitsSchema schema.now event.now }
    requires sound { IsSound (kinds_in (asked_once query.now).aggregations) groups.old }
    ensures { OnOk result (AddsAll (asked_once query.now) groups.old (unrolled schema.now event.now ∷ []) groups.new) }
{
    let time = schema.query_granularity().truncate(event.time);
    let dims = event.dims.as_slice();
    if !is_told(query, passed, time, dims) {
        return Ok(());
    }
    add_taken(groups, group, metrics, query, schema, time, event)
}

/// Adds an event, where the query selects its row.
fn add_event(
    groups: &mut Groups,
    group: &mut Vec<Text>,
    metrics: &mut Vec<i64>,
    query: &Query,
    schema: &Schema,
    event: &Event,
) -> Result<(), AllocError>
    requires fits { FitsSchema schema.now event.now }
    requires sound { IsSound (kinds_in (asked_once query.now).aggregations) groups.old }
    ensures { OnOk result (AddsAll (asked_once query.now) groups.old (unrolled schema.now event.now ∷ []) groups.new) }
{
    let time = schema.query_granularity().truncate(event.time);
    let dims = event.dims.as_slice();
    if !is_selected(query, time, dims) {
        return Ok(());
    }
    add_taken(groups, group, metrics, query, schema, time, event)
}

// Adds an event, whose row the query selects and has this time.
fn add_taken(
    groups: &mut Groups,
    group: &mut Vec<Text>,
    metrics: &mut Vec<i64>,
    query: &Query,
    schema: &Schema,
    time: i64,
    event: &Event,
) -> Result<(), AllocError>
    requires time { time ≡ (unrolled schema.now event.now).key.time }
    requires instant { IsInstant time }
    requires taken { selects (asked_once query.now) (unrolled schema.now event.now).key ≡ true }
    requires fits { FitsSchema schema.now event.now }
    requires sound { IsSound (kinds_in (asked_once query.now).aggregations) groups.old }
    ensures { OnOk result (AddsAll (asked_once query.now) groups.old (unrolled schema.now event.now ∷ []) groups.new) }
{
    read_metrics(
        schema.metrics().as_slice(),
        event.inputs.as_slice(),
        metrics,
    )?;
    let dims = event.dims.as_slice();
    add_selected(groups, group, query, time, dims, metrics.as_slice())
}

/// Writes what an event adds to each column, by its inputs, over other numbers.
fn read_metrics(
    columns: &[Metric],
    inputs: &[i64],
    metrics: &mut Vec<i64>,
) -> Result<(), AllocError>
    ensures { OnOk result (metrics.new.items ≡ contributions (map (λ m. m.kind) columns.now) inputs.now) }
{
    metrics.clear();
    metrics.reserve(columns.len())?;
    push_contributions(metrics, columns, inputs);
    Ok(())
}
