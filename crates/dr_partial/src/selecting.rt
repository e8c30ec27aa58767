ghost use Rattle.std.specs.Prelude.{◌≡◌, [], true, IfOk, OnOk, option_map, slice_get, unwrap_or};
ghost use Rattle.dr_time.specs.Instant.{IsInstant};
ghost use Rattle.dr_filter.specs.Condition.{condition_in};
ghost use Rattle.dr_predicate.specs.Match.{value_at};
ghost use Rattle.dr_ask.specs.Asked.{dimensions_by};
ghost use Rattle.dr_ask.specs.Once.{asked_once};
ghost use Rattle.dr_answers.specs.Groups.{bucket, grouped_values};
ghost use Rattle.dr_answers.specs.Selection.{selects, passes as passes_of};

use dr_answers::bucket_of;
use dr_ask::{Dimension, Query, Shape};
use dr_base::Text;
use dr_filter::Filter;
use std::alloc::{AllocError, Global};

/// Whether a query selects the rows of a time and of these dimension values.
pub fn is_selected(query: &Query, time: i64, dims: &[Text]) -> bool
    ensures { result ≡ selects (asked_once query.now) (record { time = time; dims = dims.now }) }
{
    query.intervals.contains(time) && passes(&query.filter, time, dims)
}

/// Whether a filter, where there is one, passes the rows of a time and of these dimension values.
pub fn passes(filter: &Option<Filter>, time: i64, dims: &[Text]) -> bool
    ensures { result ≡ passes_of (option_map condition_in filter.now) (record { time = time; dims = dims.now }) }
{
    match filter {
        Some(filter) => filter.matches(time, dims),
        None => true,
    }
}

/// The start of the bucket of a time.
pub fn bucket_start(query: &Query, time: i64) -> i64
    requires { IsInstant time }
    ensures { result ≡ bucket (asked_once query.now) time }
{
    bucket_of(query, time).unwrap_or(0)
}

/// The dimensions that a query groups by.
pub fn dimensions(query: &Query) -> &[Dimension]
    ensures { result.now ≡ dimensions_by (asked_once query.now).shape }
{
    match &query.shape {
        Shape::Timeseries(_) | Shape::Scan(_) => &[],
        Shape::GroupBy(groups) => groups.dimensions.distinct(),
    }
}

/// Writes the values by which a row is grouped over other texts, which takes the memory of as many texts. The only error is that
/// memory ran out.
pub fn read_group(
    alloc: Global,
    dimensions: &[Dimension],
    dims: &[Text],
    group: &mut Vec<Text>,
) -> Result<(), AllocError>
    ensures { OnOk result (group.new.items ≡ grouped_values dimensions.now dims.now) }
{
    group.clear();
    for dimension in dimensions {
        group.push(value_of(alloc, dimension.place, dims)?)?;
    }
    Ok(())
}

// The value of a dimension; one that isn't there is empty.
fn value_of(alloc: Global, place: Option<usize>, dims: &[Text]) -> Result<Text, AllocError>
    ensures { IfOk result (λ text. text ≡ value_at place dims.now) }
{
    match place {
        Some(place) => value_there(alloc, place, dims),
        None => Text::from_str(alloc, ""),
    }
}

fn value_there(alloc: Global, place: usize, dims: &[Text]) -> Result<Text, AllocError>
    ensures { IfOk result (λ text. text ≡ unwrap_or (slice_get dims.now place) []) }
{
    match dims.get(place) {
        Some(text) => text.copy(),
        None => Text::from_str(alloc, ""),
    }
}

/// Whether these are the values by which a row is grouped.
pub fn are_values(dimensions: &[Dimension], dims: &[Text], values: &[Text]) -> bool
    ensures { result ≡ true → values.now ≡ grouped_values dimensions.now dims.now }
{
    if values.len() != dimensions.len() {
        return false;
    }
    for (i, dimension) in dimensions.iter().enumerate() {
        if !is_value(dimension.place, dims, &values[i]) {
            return false;
        }
    }
    true
}

// Whether this is the value of a dimension; that of one that isn't there is empty.
fn is_value(place: Option<usize>, dims: &[Text], value: &Text) -> bool
    ensures { result ≡ true → value.now ≡ value_at place dims.now }
{
    match place {
        Some(place) => is_value_there(place, dims, value),
        None => value.as_str().is_empty(),
    }
}

fn is_value_there(place: usize, dims: &[Text], value: &Text) -> bool
    ensures { result ≡ true → value.now ≡ unwrap_or (slice_get dims.now place) [] }
{
    match dims.get(place) {
        Some(text) => value == text,
        None => value.as_str().is_empty(),
    }
}
