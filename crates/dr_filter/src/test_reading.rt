ghost use Rattle.serde_json.specs.View.{view, members_view};
ghost use Rattle.dr_filter.specs.Refusal.{Gives};
ghost use Rattle.dr_filter.specs.TestOf.{selector_of, in_of, bounds_of, bound_of, like_of, test_by};

use crate::fields::{dimension, no_unlisted, ordering, strict};
use crate::filter_error::FilterError;
use crate::values::{distinct_values, value_or_empty, value_or_none};
use dr_base::{Text, field, list_field, text_field};
use dr_predicate::{Bounds, DimensionTest, ValueTest};
use dr_schema::Schema;
use serde_json::{Map, Value};
use std::alloc::Global;

/// The test of a dimension that a filter of this type asks for. Refusals: those of its fields in the order of their table,
/// then 60 `UnknownFilter` with the first other key; 60 with a type that is none.
pub fn read_test(
    alloc: Global,
    value: &Value,
    members: &Map<String, Value>,
    kind: &str,
    schema: &Schema,
) -> Result<DimensionTest, FilterError>
    ensures { Gives (λ t. t) result (test_by kind.now schema.now (view value.now) (members_view members.now.entries)) }
{
    if kind == "selector" {
        selector(alloc, value, members, schema)
    } else if kind == "in" {
        within(alloc, value, members, schema)
    } else if kind == "bound" {
        bound(alloc, value, members, schema)
    } else if kind == "like" {
        like(alloc, value, members, schema)
    } else {
        Err(FilterError::UnknownFilter(Text::from_str(alloc, kind)?))
    }
}

#[tactic(auto, unfolding(crate::specs::TestOf::selector_of, dr_base::specs::Unlisted::unlisted))]
fn selector(
    alloc: Global,
    value: &Value,
    members: &Map<String, Value>,
    schema: &Schema,
) -> Result<DimensionTest, FilterError>
    ensures { Gives (λ t. t) result (selector_of schema.now (view value.now) (members_view members.now.entries)) }
{
    let place = dimension(alloc, value, schema)?;
    let text = value_or_empty(alloc, field(value, "value"), "value")?;
    no_unlisted(alloc, members, &["type", "dimension", "value"])?;
    Ok(DimensionTest {
        place,
        test: ValueTest::Equals(text),
    })
}

#[tactic(auto, unfolding(crate::specs::TestOf::in_of, dr_base::specs::Unlisted::unlisted))]
fn within(
    alloc: Global,
    value: &Value,
    members: &Map<String, Value>,
    schema: &Schema,
) -> Result<DimensionTest, FilterError>
    ensures { Gives (λ t. t) result (in_of schema.now (view value.now) (members_view members.now.entries)) }
{
    let place = dimension(alloc, value, schema)?;
    let items = list_field(alloc, value, "values")?;
    let texts = distinct_values(alloc, items)?;
    no_unlisted(alloc, members, &["type", "dimension", "values"])?;
    Ok(DimensionTest {
        place,
        test: ValueTest::Among(texts),
    })
}

#[tactic(auto, unfolding(crate::specs::TestOf::bound_of, dr_base::specs::Unlisted::unlisted))]
fn bound(
    alloc: Global,
    value: &Value,
    members: &Map<String, Value>,
    schema: &Schema,
) -> Result<DimensionTest, FilterError>
    ensures { Gives (λ t. t) result (bound_of schema.now (view value.now) (members_view members.now.entries)) }
{
    let place = dimension(alloc, value, schema)?;
    let bounds = bounds(alloc, value)?;
    let keys = [
        "type",
        "dimension",
        "lower",
        "upper",
        "lowerStrict",
        "upperStrict",
        "ordering",
    ];
    no_unlisted(alloc, members, &keys)?;
    Ok(DimensionTest {
        place,
        test: ValueTest::Within(bounds),
    })
}

// The ends of a `bound`.
#[tactic(auto, unfolding(crate::specs::TestOf::bounds_of))]
fn bounds(alloc: Global, value: &Value) -> Result<Bounds, FilterError>
    ensures { Gives (λ b. b) result (bounds_of (view value.now)) }
{
    let lower = value_or_none(alloc, field(value, "lower"), "lower")?;
    let upper = value_or_none(alloc, field(value, "upper"), "upper")?;
    let lower_strict = strict(alloc, field(value, "lowerStrict"), "lowerStrict")?;
    let upper_strict = strict(alloc, field(value, "upperStrict"), "upperStrict")?;
    ordering(alloc, field(value, "ordering"))?;
    Ok(Bounds {
        lower,
        upper,
        lower_strict,
        upper_strict,
    })
}

#[tactic(auto, unfolding(crate::specs::TestOf::like_of, dr_base::specs::Unlisted::unlisted))]
fn like(
    alloc: Global,
    value: &Value,
    members: &Map<String, Value>,
    schema: &Schema,
) -> Result<DimensionTest, FilterError>
    ensures { Gives (λ t. t) result (like_of schema.now (view value.now) (members_view members.now.entries)) }
{
    let place = dimension(alloc, value, schema)?;
    let pattern = text_field(alloc, value, "pattern")?;
    no_unlisted(alloc, members, &["type", "dimension", "pattern"])?;
    Ok(DimensionTest {
        place,
        test: ValueTest::Like(Text::from_str(alloc, pattern)?),
    })
}
