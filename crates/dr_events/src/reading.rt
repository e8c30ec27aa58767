ghost use Rattle.std.specs.Prelude.{◌≡◌, IfOk, option_map};
ghost use Rattle.dr_events.specs.Refusal.{Gives};
ghost use Rattle.dr_events.specs.Scalars.{data_of, value_at, input_value, dims_seen, inputs_seen, event_seen};
ghost use Rattle.dr_events.specs.EventOf.{event_of};
ghost use Rattle.dr_schema.specs.Fits.{FitsSchema};

use crate::dimension::dimension_value;
use crate::event_reader::EventReader;
use crate::event_time::event_time;
use crate::input::Input;
use crate::metric::metric_input;
use crate::places::Places;
use crate::scalar::Scalar;
use crate::unparseable::Unparseable;
use dr_base::{Event, Numbers, Texts};
use dr_schema::TimeFormat;
use dr_spec::IngestSpec;
use std::alloc::Global;

/// The event that a line spells, with that seat's mark: its time in milliseconds since the epoch, a text for each dimension
/// and a number for each metric, in the order of the spec. The first refusal of these, in this order, is answered:
/// 30 `NotAnObject` (no JSON either), 31 `NoTimestamp`, 32 `BadTimestamp`, 33 `BadDimension` and 34 `BadMetric`, both with
/// the place of the first bad one in the spec, from 0; 0 `NoMemory` may come in the place of any. A reader is made for this line
/// alone: it takes time by the columns of the spec and the bytes of the line, and memory by the columns.
pub fn read_event(
    alloc: Global,
    spec: &IngestSpec,
    seat: u8,
    bytes: &[u8],
) -> Result<Event, Unparseable>
    ensures event { Gives (λ e. e) result (event_of spec.now seat bytes.now) }
    ensures fits { IfOk result (FitsSchema spec.now) }
    ensures mark { IfOk result (λ e. e.seat ≡ seat) }
{
    EventReader::new(alloc, spec)?.read(alloc, seat, bytes)
}

/// The event of an object, by what columns see in its fields.
#[tactic(auto, unfolding(crate::specs::Scalars::event_seen))]
pub fn event_of_fields<'a>(
    alloc: Global,
    format: TimeFormat,
    seat: u8,
    places: &Places,
    found: &[Scalar<'a>],
) -> Result<Event, Unparseable>
    ensures event { Gives (λ e. e) result (event_seen format seat places.now found.now) }
    ensures mark { IfOk result (λ e. e.seat ≡ seat) }
{
    let time = event_time(format, value_at(found, places.time))?;
    let dims = dimensions(alloc, places.dimensions.as_slice(), found)?;
    let inputs = inputs(alloc, places.inputs.as_slice(), found)?;
    Ok(Event {
        seat,
        time,
        dims,
        inputs,
    })
}

#[tactic(auto, unfolding(crate::specs::Scalars::dims_seen))]
fn dimensions<'a>(
    alloc: Global,
    places: &[usize],
    found: &[Scalar<'a>],
) -> Result<Texts, Unparseable>
    ensures { Gives (λ dims. dims) result (dims_seen places.now found.now) }
{
    let mut dims = Vec::with_capacity(alloc, places.len())?;
    for (column, place) in places.iter().enumerate() {
        match dimension_value(alloc, value_at(found, *place))? {
            Some(text) => dims.push(text)?,
            None => return Err(Unparseable::BadDimension(column)),
        }
    }
    Ok(Texts::from_vec(dims))
}

#[tactic(auto, unfolding(crate::specs::Scalars::inputs_seen))]
fn inputs<'a>(
    alloc: Global,
    metrics: &[Input],
    found: &[Scalar<'a>],
) -> Result<Numbers, Unparseable>
    ensures { Gives (λ inputs. inputs) result (inputs_seen metrics.now found.now) }
{
    let mut inputs = Vec::with_capacity(alloc, metrics.len())?;
    for (place, metric) in metrics.iter().enumerate() {
        match metric_input(metric.kind, input_value(found, metric.field)) {
            Some(input) => inputs.push(input)?,
            None => return Err(Unparseable::BadMetric(place)),
        }
    }
    Ok(Numbers::from_vec(inputs))
}

fn input_value<'a>(found: &[Scalar<'a>], place: Option<usize>) -> Option<Scalar<'a>>
    ensures { option_map data_of result ≡ input_value found.now place }
{
    match place {
        Some(place) => value_at(found, place),
        None => None,
    }
}

fn value_at<'a>(found: &[Scalar<'a>], place: usize) -> Option<Scalar<'a>>
    ensures { option_map data_of result ≡ value_at found.now place }
{
    found.get(place).copied()
}
