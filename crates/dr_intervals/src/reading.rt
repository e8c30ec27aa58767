ghost use Rattle.std.specs.Prelude.{◌≡◌, map, IfOk, IfSome};
ghost use Rattle.std.specs.List.{All};
ghost use Rattle.serde_json.specs.View.{view, items_view, members_view};
ghost use Rattle.dr_base.specs.Each.{each};
ghost use Rattle.dr_time.specs.Printed as time;
ghost use Rattle.dr_time.specs.Union.{union_start};
ghost use Rattle.dr_intervals.specs.IntervalsOf.{interval_in, only_intervals, no_unlisted, object_of, intervals_of};
ghost use Rattle.dr_intervals.specs.Printable.{StartsPrintable};
ghost use Rattle.dr_intervals.specs.Refusal.{Gives};

use crate::intervals_error::IntervalsError;
use dr_base::{Text, first_unlisted, list_field, required, text_field, text_value, wrong_kind};
use dr_time::{Interval, Union, parse_interval};
use serde_json::{Map, Value};
use std::alloc::Global;
use std::slice;

/// The union of the intervals under `intervals` (Apache Druid documentation, native queries, intervals): a text, a list of
/// texts, which may be empty, or the object `{"type":"intervals","intervals":[..]}`, each text as
/// [`dr_time::parse_interval`] reads it. Each starts at a time that can be printed.
///
/// Refusals, in this order: 2 `Missing` and 3 `WrongKind` of `intervals`; of the object its `type` (2, 3, and
/// [`IntervalsError::Unread`] with it where it is another text), then its list; 3 `intervals` and 11 to 13 text by text;
/// last `Unread` with the first other key of the object that asks for something. It takes memory for the intervals, and
/// time by the bytes of their texts.
#[tactic(auto, unfolding(crate::specs::IntervalsOf::intervals_of))]
pub fn intervals(alloc: Global, value: &Value) -> Result<Union, IntervalsError>
    ensures value { Gives (λ u. u) result (intervals_of (view value.now)) }
    ensures printable { IfOk result (All StartsPrintable) }
{
    let found = required(alloc, value, "intervals")?;
    let intervals = match found {
        Value::String(_) => each(alloc, slice::from_ref(found))?,
        Value::Array(items) => each(alloc, items.as_slice())?,
        Value::Object(members) => within(alloc, found, members)?,
        _ => return Err(IntervalsError::Base(wrong_kind(alloc, "intervals"))),
    };
    Ok(Union::of(alloc, intervals.as_slice())?)
}

/// The least start of the intervals that aren't empty, in milliseconds since the epoch, of a union of such intervals. It can
/// be printed. It takes constant time and no memory.
#[tactic(auto, using(crate::proofs::PrintableIntervals::printable_starts))]
pub fn start(union: &Union) -> Option<i64>
    requires { All StartsPrintable union.now }
    ensures value { result ≡ union_start union.now }
    ensures printable { IfSome result time.IsPrintable }
{
    union.start()
}

/// The intervals of an object.
#[tactic(auto, unfolding(crate::specs::IntervalsOf::object_of))]
fn within(
    alloc: Global,
    value: &Value,
    members: &Map<String, Value>,
) -> Result<Vec<Interval>, IntervalsError>
    ensures value { Gives (λ v. v.items) result (object_of (view value.now) (members_view members.now.entries)) }
    ensures printable { IfOk result (λ v. All StartsPrintable v.items) }
{
    let kind = text_field(alloc, value, "type")?;
    only_intervals(alloc, kind)?;
    let items = list_field(alloc, value, "intervals")?;
    let intervals = each(alloc, items)?;
    no_unlisted(alloc, members, &["type", "intervals"])?;
    Ok(intervals)
}

fn only_intervals(alloc: Global, kind: &str) -> Result<(), IntervalsError>
    ensures { Gives (λ u. u) result (only_intervals kind.now) }
{
    if kind == "intervals" {
        Ok(())
    } else {
        Err(IntervalsError::Unread(Text::from_str(alloc, kind)?))
    }
}

fn no_unlisted(
    alloc: Global,
    members: &Map<String, Value>,
    listed: &[&str],
) -> Result<(), IntervalsError>
    ensures { Gives (λ u. u) result (no_unlisted (map (λ t. t.now) listed.now) (members_view members.now.entries)) }
{
    match first_unlisted(members, listed) {
        Some(key) => Err(IntervalsError::Unread(Text::from_str(alloc, key)?)),
        None => Ok(()),
    }
}

fn each(alloc: Global, values: &[Value]) -> Result<Vec<Interval>, IntervalsError>
    ensures value { Gives (λ v. v.items) result (each interval_in (items_view values.now)) }
    ensures printable { IfOk result (λ v. All StartsPrintable v.items) }
{
    let mut intervals = Vec::new(alloc);
    for value in values {
        intervals.push(interval(alloc, value)?)?;
    }
    Ok(intervals)
}

#[tactic(auto, unfolding(crate::specs::IntervalsOf::interval_in))]
fn interval(alloc: Global, value: &Value) -> Result<Interval, IntervalsError>
    ensures value { Gives (λ i. i) result (interval_in (view value.now)) }
    ensures printable { IfOk result StartsPrintable }
{
    let text = text_value(alloc, value, "intervals")?;
    Ok(parse_interval(text)?)
}
