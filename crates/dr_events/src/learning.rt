ghost use Rattle.std.specs.Prelude.{◌≡◌, ◌++◌, ℕ, List, IfOk, OnOk};
ghost use Rattle.dr_events.specs.Scalars.{AreFields, AreNamed, AreRead, IsPlaceOf};

use crate::input::Input;
use crate::names::Names;
use crate::places::Places;
use dr_base::Text;
use dr_schema::{Metric, Schema};
use std::alloc::AllocError;

/// Puts the names of the fields that the columns of a schema read among the names, and notes where they stand. Where the
/// names are those of this schema already, in its order, each is compared once with the name at its place.
pub fn learn(names: &mut Names, places: &mut Places, schema: &Schema) -> Result<(), AllocError>
    ensures { OnOk result (AreFields schema.now names.new places.new) }
{
    places.time = names.add(0, schema.time_column())?;
    let next = learn_dimensions(
        names,
        1,
        schema.dimensions().as_slice(),
        &mut places.dimensions,
    )?;
    learn_metrics(names, next, schema.metrics().as_slice(), &mut places.inputs)
}

// The first of the columns stands likely at the place `next`, and each other one behind those before it. The place that the
// next column likely has is answered.
fn learn_dimensions(
    names: &mut Names,
    next: usize,
    columns: &[Text],
    places: &mut Vec<usize>,
) -> Result<usize, AllocError>
    ensures named { OnOk result (AreNamed names.new columns.now places.new.items) }
    ensures kept { (more : List (List ℕ)) × (names.new ≡ names.old ++ more) }
{
    let mut next = next;
    places.clear();
    for column in columns {
        let place = names.add(next, column)?;
        places.push(place)?;
        next = next.max(place.saturating_add(1));
    }
    Ok(next)
}

fn learn_metrics(
    names: &mut Names,
    next: usize,
    metrics: &[Metric],
    inputs: &mut Vec<Input>,
) -> Result<(), AllocError>
    ensures read { OnOk result (AreRead names.new metrics.now inputs.new.items) }
    ensures kept { (more : List (List ℕ)) × (names.new ≡ names.old ++ more) }
{
    let mut next = next;
    inputs.clear();
    for metric in metrics {
        let field = learn_field(names, next, &metric.field)?;
        inputs.push(Input {
            kind: metric.kind,
            field,
        })?;
        next = next.max(behind(field));
    }
    Ok(())
}

fn learn_field(
    names: &mut Names,
    next: usize,
    field: &Option<Text>,
) -> Result<Option<usize>, AllocError>
    ensures read { IfOk result (λ place. IsPlaceOf names.new field.now place) }
    ensures kept { (more : List (List ℕ)) × (names.new ≡ names.old ++ more) }
{
    match field {
        Some(name) => Ok(Some(names.add(next, name)?)),
        None => Ok(None),
    }
}

// The place behind one.
fn behind(place: Option<usize>) -> usize {
    match place {
        Some(place) => place.saturating_add(1),
        None => 0,
    }
}
