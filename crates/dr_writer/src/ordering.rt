ghost use Rattle.std.specs.Prelude.{◌≡◌, IfOk, OnOk, bytes_eq, map};
ghost use Rattle.std.specs.List.{IsDistinct};
ghost use Rattle.dr_answers.specs.declared.result_row.ResultRow.{ResultRow};
ghost use Rattle.dr_ask.specs.Asked.{asked, asked_shape, dimensions_by};
ghost use Rattle.dr_ask.specs.MadeFor.{outputs};
ghost use Rattle.dr_ask.specs.Outputs.{aggregation_names, dimension_names};
ghost use Rattle.dr_writer.specs.Outputs.{dim_at, value_at, with_places, output_of, members_at, members_of};

use crate::output::{Output, Place};
use dr_ask::{Aggregation, Dimension, Query, Shape};
use dr_base::Text;
use std::alloc::{AllocError, Global};
use std::collections::BTreeMap;

/// The outputs of a query in ascending byte order of their names. It takes time by n log n in the outputs.
pub(crate) fn outputs_in_order(alloc: Global, query: &Query) -> Result<Vec<Output>, AllocError>
    requires { IsDistinct bytes_eq (outputs (asked query.now)) }
    ensures { IfOk result (λ os. (g : ResultRow) → members_at g os.items ≡ members_of (asked query.now) g) }
{
    let mut places = BTreeMap::new(alloc);
    add_shape(&mut places, &query.shape)?;
    add_aggregations(&mut places, query.aggregations.as_slice())?;
    outputs_of(alloc, places)
}

/// The dimensions of a groupBy; a timeseries has none, and a scan none.
fn add_shape(places: &mut BTreeMap<Text, Place>, shape: &Shape) -> Result<(), AllocError>
    ensures { OnOk result (places.new.entries ≡ with_places dim_at 0 places.old.entries (dimension_names (dimensions_by (asked_shape shape.now)))) }
{
    match shape {
        Shape::Timeseries(_) | Shape::Scan(_) => Ok(()),
        Shape::GroupBy(group_by) => add_dimensions(places, group_by.dimensions.as_slice()),
    }
}

fn add_dimensions(
    places: &mut BTreeMap<Text, Place>,
    dimensions: &[Dimension],
) -> Result<(), AllocError>
    ensures { OnOk result (places.new.entries ≡ with_places dim_at 0 places.old.entries (dimension_names dimensions.now)) }
{
    for (i, dimension) in dimensions.iter().enumerate() {
        places.insert(dimension.name.copy()?, Place::Dim(i))?;
    }
    Ok(())
}

fn add_aggregations(
    places: &mut BTreeMap<Text, Place>,
    aggregations: &[Aggregation],
) -> Result<(), AllocError>
    ensures { OnOk result (places.new.entries ≡ with_places value_at 0 places.old.entries (aggregation_names aggregations.now)) }
{
    for (i, aggregation) in aggregations.iter().enumerate() {
        places.insert(aggregation.name.copy()?, Place::Value(i))?;
    }
    Ok(())
}

fn outputs_of(alloc: Global, places: BTreeMap<Text, Place>) -> Result<Vec<Output>, AllocError>
    ensures { IfOk result (λ os. os.items ≡ map output_of places.entries) }
{
    let mut outputs = Vec::with_capacity(alloc, places.len())?;
    for (name, place) in places {
        outputs.push(Output { name, place })?;
    }
    Ok(outputs)
}
