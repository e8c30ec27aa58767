ghost use Rattle.std.specs.Prelude.{◌≡◌, option_map};
ghost use Rattle.serde_json.specs.View.{view, members_view};
ghost use Rattle.dr_order.specs.LimitSpecOf.{type_of, limit_of, no_limit, default_of, limit_spec_in, limit_spec_of};
ghost use Rattle.dr_order.specs.Refusal.{Gives};

use crate::column_reading::columns;
use crate::fields::{count, no_unlisted};
use crate::limit_spec::LimitSpec;
use crate::order_columns::OrderColumns;
use crate::order_error::OrderError;
use dr_base::{Text, field, object, text_value};
use serde_json::{Map, Value};
use std::alloc::Global;

impl LimitSpec {
    /// The `limitSpec` of a query, over the names of its outputs, those of its dimensions and those of its aggregations
    /// (Apache Druid documentation, groupBy queries: limitSpec). One that is absent orders by nothing and limits nothing, and
    /// so does one of type `NoopLimitSpec`; `default` is the type where it is absent. A key that is not read passes where it
    /// holds null, false, `[]` or `{}`, and where several things are refused, the first in this order is told:
    ///
    /// - 3 `WrongKind` `limitSpec` of a value that is no object;
    /// - `type`: 3, and 76 `Unsupported` with another text;
    /// - `limit`, `offset`: 3 for all but whole numbers from 0 to 2^64 - 1; an absent one is 0, and a limit of 0 is none;
    /// - `columns`: 3 for all but a list, whose members are names of outputs or objects; of each `dimension` (2, 3, and 73
    ///   `UnknownOrderColumn` with a name that is no output), `direction` (3, and 76 with another text than `ascending` and
    ///   `descending` in any case), `dimensionOrder` (76 with another order than `lexicographic`, and for an aggregation
    ///   `numeric`), then 76 with another key;
    /// - 76 with the first key in byte order that is not one of these.
    ///
    /// 0 `NoMemory` may come in the place of any other answer. It takes memory for the columns and for a place of each output,
    /// and time by the bytes of the value, and for each name a logarithm of the outputs times its bytes.
    pub fn parse(
        alloc: Global,
        value: Option<&Value>,
        dimensions: &[Text],
        aggregations: &[Text],
    ) -> Result<LimitSpec, OrderError>
        ensures { Gives (λ s. s) result (limit_spec_of dimensions.now aggregations.now (option_map (λ v. view v.now) value.entry)) }
    {
        match value {
            Some(value) => limit_spec(alloc, value, dimensions, aggregations),
            None => Ok(no_limit(alloc)),
        }
    }
}

fn no_limit(alloc: Global) -> LimitSpec
    ensures { result ≡ no_limit }
{
    LimitSpec {
        columns: OrderColumns::new(alloc),
        offset: 0,
        limit: None,
    }
}

#[tactic(auto, unfolding(crate::specs::LimitSpecOf::limit_spec_in))]
fn limit_spec(
    alloc: Global,
    value: &Value,
    dimensions: &[Text],
    aggregations: &[Text],
) -> Result<LimitSpec, OrderError>
    ensures { Gives (λ s. s) result (limit_spec_in dimensions.now aggregations.now (view value.now)) }
{
    let members = object(alloc, value, "limitSpec")?;
    let kind = kind(alloc, field(value, "type"))?;
    if kind == "NoopLimitSpec" {
        no_unlisted(alloc, members, &["type"])?;
        Ok(no_limit(alloc))
    } else if kind == "default" {
        default(alloc, value, members, dimensions, aggregations)
    } else {
        Err(OrderError::Unsupported(Text::from_str(alloc, kind)?))
    }
}

/// The type, `default` where it is absent.
fn kind<'v>(alloc: Global, value: Option<&'v Value>) -> Result<&'v str, OrderError>
    ensures { Gives (λ t. t.now) result (type_of (option_map (λ v. view v.now) value.entry)) }
{
    match value {
        Some(value) => Ok(text_value(alloc, value, "type")?),
        None => Ok("default"),
    }
}

#[tactic(auto, unfolding(crate::specs::LimitSpecOf::default_of, dr_base::specs::Unlisted::unlisted))]
fn default(
    alloc: Global,
    value: &Value,
    members: &Map<String, Value>,
    dimensions: &[Text],
    aggregations: &[Text],
) -> Result<LimitSpec, OrderError>
    ensures { Gives (λ s. s) result (default_of dimensions.now aggregations.now (view value.now) (members_view members.now.entries)) }
{
    let limit = count(alloc, field(value, "limit"), "limit")?;
    let offset = count(alloc, field(value, "offset"), "offset")?;
    let columns = columns(alloc, field(value, "columns"), dimensions, aggregations)?;
    no_unlisted(alloc, members, &["type", "limit", "offset", "columns"])?;
    Ok(LimitSpec {
        columns,
        offset,
        limit: limit_of(limit),
    })
}

/// A limit of 0 is none.
fn limit_of(limit: u64) -> Option<u64>
    ensures { result ≡ limit_of limit }
{
    if limit == 0 { None } else { Some(limit) }
}
