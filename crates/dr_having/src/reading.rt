ghost use Rattle.std.specs.Prelude.{codes, map};
ghost use Rattle.serde_json.specs.View.{view, items_view, members_view};
ghost use Rattle.dr_base.specs.Each.{each};
ghost use Rattle.dr_having.specs.Condition.{condition_in};
ghost use Rattle.dr_having.specs.HavingOf.{other_by, simple_by, too_deep_of, specs_of, spec_of, level_of, having_at, having_of};
ghost use Rattle.dr_having.specs.Refusal.{Gives};

use crate::having::Having;
use crate::having_error::HavingError;
use crate::leaf_reading::{aggregation, comparison_of, dimension, no_unlisted};
use dr_base::{Text, list_field, object, required, text_field};
use dr_outputs::OutputNames;
use serde_json::{Map, Value};
use std::alloc::Global;

/// How deep conditions may nest.
const MOST_LEVELS: usize = 64;

impl Having {
    /// The condition that a JSON value spells, over the names of the outputs of a query, those of its dimensions and those of
    /// its aggregations (Apache Druid documentation, groupBy queries: having): `equalTo`, `greaterThan`, `lessThan`,
    /// `dimSelector`, `and`, `or`, `not`. A key that is not read passes where it holds null, false, `[]` or `{}`, and where
    /// several things are refused, the first in this order is told, within one object, whose inner conditions are judged
    /// where their field stands:
    ///
    /// - 3 `WrongKind` of a value that is no object, by the name `having`, `havingSpec` or `havingSpecs`;
    /// - 62 `TooDeep` for the conditions at level 65;
    /// - `type`: 76 `Unsupported` with another text;
    /// - the fields of that type: 77 `UnknownHavingColumn` with an `aggregation` or a `dimension` that is no such output;
    /// - 76 with the first key in byte order that is not one of these.
    ///
    /// A field that is required and absent or null is 2 `Missing` with its name, and one of another kind 3 `WrongKind`. 0
    /// `NoMemory` may come in the place of any other answer. It takes memory for the conditions and for a place of each
    /// output, and time by the bytes of the value, and for each name a logarithm of the outputs times its bytes.
    #[tactic(auto, unfolding(crate::specs::HavingOf::having_of))]
    pub fn parse(
        alloc: Global,
        value: &Value,
        dimensions: &[Text],
        aggregations: &[Text],
    ) -> Result<Having, HavingError>
        ensures { Gives condition_in result (having_of dimensions.now aggregations.now (view value.now)) }
    {
        let dimensions = OutputNames::of(alloc, dimensions)?;
        let aggregations = OutputNames::of(alloc, aggregations)?;
        having_at(
            alloc,
            value,
            &dimensions,
            &aggregations,
            "having",
            MOST_LEVELS,
        )
    }
}

/// A condition in which so many levels may nest, itself among them.
#[cycle(nesting)]
fn having_at(
    alloc: Global,
    value: &Value,
    dimensions: &OutputNames<'_>,
    aggregations: &OutputNames<'_>,
    name: &str,
    levels: usize,
) -> Result<Having, HavingError>
    ensures { Gives condition_in result (having_at levels dimensions.now aggregations.now name.now (view value.now)) }
{
    if levels == 0 {
        too_deep(alloc, value, name)
    } else {
        level(alloc, value, dimensions, aggregations, name, levels - 1)
    }
}

/// A condition that is nested too deep, whatever it is: 62, after 3 where it is no object.
fn too_deep(alloc: Global, value: &Value, name: &str) -> Result<Having, HavingError>
    ensures { Gives condition_in result (too_deep_of name.now (view value.now)) }
{
    object(alloc, value, name)?;
    Err(HavingError::TooDeep)
}

/// A condition in which so many levels may nest beside itself.
#[cycle(nesting)]
#[tactic(auto, unfolding(crate::specs::HavingOf::level_of))]
fn level(
    alloc: Global,
    value: &Value,
    dimensions: &OutputNames<'_>,
    aggregations: &OutputNames<'_>,
    name: &str,
    inside: usize,
) -> Result<Having, HavingError>
    ensures { Gives condition_in result (level_of (having_at inside dimensions.now aggregations.now) dimensions.now aggregations.now name.now (view value.now)) }
{
    let members = object(alloc, value, name)?;
    let kind = text_field(alloc, value, "type")?;
    if kind == "and" {
        let conditions = specs(alloc, value, members, dimensions, aggregations, inside)?;
        Ok(Having::And(conditions))
    } else if kind == "or" {
        let conditions = specs(alloc, value, members, dimensions, aggregations, inside)?;
        Ok(Having::Or(conditions))
    } else if kind == "not" {
        let condition = spec(alloc, value, members, dimensions, aggregations, inside)?;
        Ok(Having::Not(Box::new(alloc, condition)?))
    } else {
        simple(alloc, value, members, kind, dimensions, aggregations)
    }
}

/// The conditions of an `and` or an `or`.
#[cycle(nesting)]
#[tactic(auto, unfolding(crate::specs::HavingOf::specs_of, dr_base::specs::Unlisted::unlisted))]
fn specs(
    alloc: Global,
    value: &Value,
    members: &Map<String, Value>,
    dimensions: &OutputNames<'_>,
    aggregations: &OutputNames<'_>,
    inside: usize,
) -> Result<Vec<Having>, HavingError>
    ensures { Gives (λ v. map condition_in v.items) result (specs_of (having_at inside dimensions.now aggregations.now) (view value.now) (members_view members.now.entries)) }
{
    let items = list_field(alloc, value, "havingSpecs")?;
    let conditions = each(alloc, items, dimensions, aggregations, inside)?;
    no_unlisted(alloc, members, &["type", "havingSpecs"])?;
    Ok(conditions)
}

#[cycle(nesting)]
fn each(
    alloc: Global,
    values: &[Value],
    dimensions: &OutputNames<'_>,
    aggregations: &OutputNames<'_>,
    inside: usize,
) -> Result<Vec<Having>, HavingError>
    ensures { Gives (λ v. map condition_in v.items) result (each (having_at inside dimensions.now aggregations.now (codes "havingSpecs")) (items_view values.now)) }
{
    let mut conditions = Vec::new(alloc);
    for value in values {
        conditions.push(having_at(
            alloc,
            value,
            dimensions,
            aggregations,
            "havingSpecs",
            inside,
        )?)?;
    }
    Ok(conditions)
}

/// The condition of a `not`.
#[cycle(nesting)]
#[tactic(auto, unfolding(crate::specs::HavingOf::spec_of, dr_base::specs::Unlisted::unlisted))]
fn spec(
    alloc: Global,
    value: &Value,
    members: &Map<String, Value>,
    dimensions: &OutputNames<'_>,
    aggregations: &OutputNames<'_>,
    inside: usize,
) -> Result<Having, HavingError>
    ensures { Gives condition_in result (spec_of (having_at inside dimensions.now aggregations.now) (view value.now) (members_view members.now.entries)) }
{
    let found = required(alloc, value, "havingSpec")?;
    let condition = having_at(alloc, found, dimensions, aggregations, "havingSpec", inside)?;
    no_unlisted(alloc, members, &["type", "havingSpec"])?;
    Ok(condition)
}

/// A condition on one output.
fn simple(
    alloc: Global,
    value: &Value,
    members: &Map<String, Value>,
    kind: &str,
    dimensions: &OutputNames<'_>,
    aggregations: &OutputNames<'_>,
) -> Result<Having, HavingError>
    ensures { Gives condition_in result (simple_by kind.now dimensions.now aggregations.now (view value.now) (members_view members.now.entries)) }
{
    match comparison_of(kind) {
        Some(comparison) => Ok(Having::Aggregation(aggregation(
            alloc,
            value,
            members,
            comparison,
            aggregations,
        )?)),
        None => other(alloc, value, members, kind, dimensions),
    }
}

/// A condition that is none on an aggregation.
fn other(
    alloc: Global,
    value: &Value,
    members: &Map<String, Value>,
    kind: &str,
    dimensions: &OutputNames<'_>,
) -> Result<Having, HavingError>
    ensures { Gives condition_in result (other_by kind.now dimensions.now (view value.now) (members_view members.now.entries)) }
{
    if kind == "dimSelector" {
        Ok(Having::Dimension(dimension(alloc, value, members, dimensions)?))
    } else {
        Err(HavingError::Unsupported(Text::from_str(alloc, kind)?))
    }
}
