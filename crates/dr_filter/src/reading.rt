ghost use Rattle.std.specs.Prelude.{codes, map};
ghost use Rattle.serde_json.specs.View.{view, items_view, members_view};
ghost use Rattle.dr_base.specs.Each.{each};
ghost use Rattle.dr_filter.specs.Condition.{condition_in};
ghost use Rattle.dr_filter.specs.FilterOf.{only_time, interval_filter_of, simple_by, too_deep_of, fields_of, field_of, level_of, filter_at, filter_of};
ghost use Rattle.dr_filter.specs.Refusal.{Gives};

use crate::fields::no_unlisted;
use crate::filter::Filter;
use crate::filter_error::FilterError;
use crate::filter_tree::FilterTree;
use crate::test_reading::read_test;
use dr_base::{Text, list_field, object, required, text_field};
use dr_intervals::intervals;
use dr_schema::Schema;
use serde_json::{Map, Value};
use std::alloc::Global;

/// How deep filters may nest.
const MOST_LEVELS: usize = 64;

impl Filter {
    /// The filter that a JSON value spells for a schema (Apache Druid documentation, query filters): `selector`, `in`,
    /// `bound`, `like`, `interval`, `and`, `or`, `not`. A key that is not read passes where it holds null, false, `[]` or
    /// `{}`, and where several things are refused, the first in this order is told, within one object, whose inner filters
    /// are judged where their field stands:
    ///
    /// - 3 `WrongKind` of a value that is no object, by the name `filter`, `field` or `fields`;
    /// - 62 `TooDeep` for the filters at level 65;
    /// - `type`: 60 `UnknownFilter` with another text;
    /// - `dimension`: 61 `FilterOnMetric` with the name of a metric or of `__time`; in an `interval` 60 `interval` for every
    ///   other name than `__time`;
    /// - the fields of that type: 60 with another `ordering` than `lexicographic`, 11 to 13 and 60 of `intervals`;
    /// - 60 with the first key in byte order that is not one of these.
    ///
    /// A field that is required and absent or null is 2 `Missing` with its name, and one of another kind 3 `WrongKind`. 0
    /// `NoMemory` may come in the place of any other answer. It takes memory for the texts of the value, and expected time by
    /// its bytes and, for each filter of a dimension, by the columns of the schema. Then it is made what [`Filter::asked`] gives,
    /// in expected time and memory by the bytes of the value, but `bound`s, `like`s and intervals, which are sorted and take theirs
    /// times the logarithm of their number, as do the values of a dimension that are asked together with its `bound`s, and what
    /// stands in a nest that comes down to one test, which counts once for each such level.
    #[tactic(auto, unfolding(crate::specs::FilterOf::filter_of))]
    pub fn parse(alloc: Global, value: &Value, schema: &Schema) -> Result<Filter, FilterError>
        ensures { Gives condition_in result (filter_of schema.now (view value.now)) }
    {
        let spelled = filter_at(alloc, value, schema, "filter", MOST_LEVELS)?;
        Ok(Filter::of(alloc, spelled)?)
    }
}

/// A filter in which so many levels may nest, itself among them.
#[cycle(nesting)]
fn filter_at(
    alloc: Global,
    value: &Value,
    schema: &Schema,
    name: &str,
    levels: usize,
) -> Result<FilterTree, FilterError>
    ensures { Gives condition_in result (filter_at levels schema.now name.now (view value.now)) }
{
    if levels == 0 {
        too_deep(alloc, value, name)
    } else {
        level(alloc, value, schema, name, levels - 1)
    }
}

/// A filter that is nested too deep, whatever it is: 62, after 3 where it is no object.
fn too_deep(alloc: Global, value: &Value, name: &str) -> Result<FilterTree, FilterError>
    ensures { Gives condition_in result (too_deep_of name.now (view value.now)) }
{
    object(alloc, value, name)?;
    Err(FilterError::TooDeep)
}

/// A filter in which so many levels may nest beside itself.
#[cycle(nesting)]
#[tactic(auto, unfolding(crate::specs::FilterOf::level_of))]
fn level(
    alloc: Global,
    value: &Value,
    schema: &Schema,
    name: &str,
    inside: usize,
) -> Result<FilterTree, FilterError>
    ensures { Gives condition_in result (level_of (filter_at inside schema.now) schema.now name.now (view value.now)) }
{
    let members = object(alloc, value, name)?;
    let kind = text_field(alloc, value, "type")?;
    if kind == "and" {
        let filters = fields(alloc, value, members, schema, inside)?;
        Ok(FilterTree::And(filters))
    } else if kind == "or" {
        let filters = fields(alloc, value, members, schema, inside)?;
        Ok(FilterTree::Or(filters))
    } else if kind == "not" {
        let filter = inner(alloc, value, members, schema, inside)?;
        Ok(filter.denied(alloc)?)
    } else {
        simple(alloc, value, members, kind, schema)
    }
}

/// The filters of an `and` or an `or`.
#[cycle(nesting)]
#[tactic(auto, unfolding(crate::specs::FilterOf::fields_of))]
fn fields(
    alloc: Global,
    value: &Value,
    members: &Map<String, Value>,
    schema: &Schema,
    inside: usize,
) -> Result<Vec<FilterTree>, FilterError>
    ensures { Gives (λ v. map condition_in v.items) result (fields_of (filter_at inside schema.now) (view value.now) (members_view members.now.entries)) }
{
    let items = list_field(alloc, value, "fields")?;
    let filters = each(alloc, items, schema, inside)?;
    no_unlisted(alloc, members, &["type", "fields"])?;
    Ok(filters)
}

#[cycle(nesting)]
fn each(
    alloc: Global,
    values: &[Value],
    schema: &Schema,
    inside: usize,
) -> Result<Vec<FilterTree>, FilterError>
    ensures { Gives (λ v. map condition_in v.items) result (each (filter_at inside schema.now (codes "fields")) (items_view values.now)) }
{
    let mut filters = Vec::new(alloc);
    for value in values {
        filters.push(filter_at(alloc, value, schema, "fields", inside)?)?;
    }
    Ok(filters)
}

/// The filter of a `not`.
#[cycle(nesting)]
#[tactic(auto, unfolding(crate::specs::FilterOf::field_of))]
fn inner(
    alloc: Global,
    value: &Value,
    members: &Map<String, Value>,
    schema: &Schema,
    inside: usize,
) -> Result<FilterTree, FilterError>
    ensures { Gives condition_in result (field_of (filter_at inside schema.now) (view value.now) (members_view members.now.entries)) }
{
    let found = required(alloc, value, "field")?;
    let filter = filter_at(alloc, found, schema, "field", inside)?;
    no_unlisted(alloc, members, &["type", "field"])?;
    Ok(filter)
}

/// A filter without filters inside.
fn simple(
    alloc: Global,
    value: &Value,
    members: &Map<String, Value>,
    kind: &str,
    schema: &Schema,
) -> Result<FilterTree, FilterError>
    ensures { Gives condition_in result (simple_by kind.now schema.now (view value.now) (members_view members.now.entries)) }
{
    if kind == "interval" {
        interval_filter(alloc, value, members)
    } else {
        let test = read_test(alloc, value, members, kind, schema)?;
        Ok(FilterTree::of_test(test))
    }
}

#[tactic(auto, unfolding(crate::specs::FilterOf::interval_filter_of))]
fn interval_filter(
    alloc: Global,
    value: &Value,
    members: &Map<String, Value>,
) -> Result<FilterTree, FilterError>
    ensures { Gives condition_in result (interval_filter_of (view value.now) (members_view members.now.entries)) }
{
    let name = text_field(alloc, value, "dimension")?;
    only_time(alloc, name)?;
    let union = intervals(alloc, value)?;
    no_unlisted(alloc, members, &["type", "dimension", "intervals"])?;
    Ok(FilterTree::of_intervals(union))
}

fn only_time(alloc: Global, name: &str) -> Result<(), FilterError>
    ensures { Gives (λ u. u) result (only_time name.now) }
{
    if name == "__time" {
        Ok(())
    } else {
        Err(FilterError::UnknownFilter(Text::from_str(alloc, "interval")?))
    }
}
