ghost use Rattle.std.specs.Prelude.{◌≡◌, IfOk, OnOk, Some};
ghost use Rattle.dr_agg.specs.Combination.{column};
ghost use Rattle.dr_filter.specs.Condition.{condition_in, matches};
ghost use Rattle.dr_predicate.specs.Match.{value_at};

use dr_base::Text;
use dr_filter::Filter;
use dr_fragment::RowRef;
use std::alloc::AllocError;

/// The value of a row in a dimension; empty where there is no such dimension.
pub(crate) fn dim<'r>(row: &'r RowRef<'_>, place: usize) -> &'r str
    ensures { result.now ≡ value_at (Some place) row.now.key.dims }
{
    if place >= row.dim_count() {
        return "";
    }
    row.dim(place)
}

/// The value of a row in a metric; 0 where there is no such metric.
pub(crate) fn metric(row: &RowRef<'_>, place: usize) -> i64
    ensures { result ≡ column place row.now.metrics }
{
    if place >= row.metric_count() {
        return 0;
    }
    row.metric(place)
}

/// Whether a row meets a filter. `dims` is memory to use again. The only error is that memory ran out.
pub(crate) fn meets(
    row: &RowRef<'_>,
    filter: &Filter,
    dims: &mut Vec<Text>,
) -> Result<bool, AllocError>
    ensures { IfOk result (λ b. b ≡ matches row.now.key.time row.now.key.dims (condition_in filter.now)) }
{
    if let Some((time, dims, _)) = row.parts() {
        return Ok(filter.matches(time, dims));
    }
    read_dims(row, dims)?;
    Ok(filter.matches(row.time(), dims.as_slice()))
}

/// Writes the values of a row in the dimensions over other texts.
fn read_dims(row: &RowRef<'_>, dims: &mut Vec<Text>) -> Result<(), AllocError>
    ensures { OnOk result (dims.new.items ≡ row.now.key.dims) }
{
    dims.clear();
    let alloc = *dims.allocator();
    for d in 0..row.dim_count() {
        dims.push(Text::from_str(alloc, row.dim(d))?)?;
    }
    Ok(())
}
