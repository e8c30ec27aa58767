ghost use Rattle.std.specs.Prelude.{◌≡◌, IfOk};
ghost use Rattle.std.specs.Cmp.Lexicographic.{slice_cmp};
ghost use Rattle.std.specs.List.Sorted.{IsSortedBy, IsStableBy};
ghost use Rattle.std.specs.Ordering.{is_lt, nat_cmp, ordering_then};
ghost use Rattle.dr_ask.specs.Firsts.{numbers_of, is_same_dimension};
ghost use Rattle.dr_outputs.specs.Numbered.{texts_by};
ghost use Rattle.dr_order.specs.Order.{groups_cmp};
ghost use Rattle.dr_finish.specs.RowOrder.{numbers_from, row_cmp, spread_row};

use dr_ask::{Aggregations, Dimensions, GroupBy};
use dr_base::{Row, Text};
use dr_outputs::{OutputNumbers, OutputTexts, text_at};
use std::alloc::AllocError;
use std::cmp::Ordering;

/// The groups by bucket, then by the columns, then by their dimensions; groups that compare as equal stay in their order. The
/// only error is that memory ran out. It takes the time that sorting them takes; of dimensions that are the same the values are
/// compared once.
pub fn ordered(
    by: &GroupBy,
    aggregations: &Aggregations,
    groups: Vec<Row>,
) -> Result<Vec<Row>, AllocError>
    ensures sorted { IfOk result (λ ordered. IsSortedBy (λ a b. is_lt (row_cmp by.now.limit_spec.columns by.now.dimensions aggregations.now a b)) ordered.items) }
    ensures stable { IfOk result (λ ordered. IsStableBy (λ a b. is_lt (row_cmp by.now.limit_spec.columns by.now.dimensions aggregations.now a b)) groups.items ordered.items) }
{
    let mut ordered = groups;
    ordered.sort_by(
        |a: &Row, b: &Row| -> Ordering
            ensures { result ≡ row_cmp by.entry.now.limit_spec.columns by.entry.now.dimensions aggregations.entry.now a.now b.now }
        { order(by, aggregations, a, b) },
    )?;
    Ok(ordered)
}

// How two groups compare, and then their keys.
fn order(by: &GroupBy, aggregations: &Aggregations, a: &Row, b: &Row) -> Ordering
    ensures { result ≡ row_cmp by.now.limit_spec.columns by.now.dimensions aggregations.now a.now b.now }
{
    match a.key.time.cmp(&b.key.time) {
        Ordering::Equal => order_in_bucket(by, aggregations, a, b),
        other => other,
    }
}

// How two groups of one bucket compare, and then the dimension values of their keys.
fn order_in_bucket(by: &GroupBy, aggregations: &Aggregations, a: &Row, b: &Row) -> Ordering
    ensures { result ≡ ordering_then (groups_cmp by.now.limit_spec.columns (spread_row by.now.dimensions aggregations.now a.now).dims (spread_row by.now.dimensions aggregations.now a.now).values (spread_row by.now.dimensions aggregations.now b.now).dims (spread_row by.now.dimensions aggregations.now b.now).values) (slice_cmp (slice_cmp nat_cmp) a.now.key.dims b.now.key.dims) }
{
    let (dims, other_dims) = (a.key.dims.as_slice(), b.key.dims.as_slice());
    let (numbers, places) = (by.dimensions.numbers(), aggregations.numbers());
    let order = by.limit_spec.columns.order(
        &OutputTexts::new(dims, numbers),
        &OutputNumbers::new(a.metrics.as_slice(), places),
        &OutputTexts::new(other_dims, numbers),
        &OutputNumbers::new(b.metrics.as_slice(), places),
    );
    match order {
        Ordering::Equal => dims_order(&by.dimensions, dims, other_dims),
        other => other,
    }
}

// How the dimension values of two groups compare, and then those of their keys, which differ where the others do.
fn dims_order(dimensions: &Dimensions, dims: &[Text], other_dims: &[Text]) -> Ordering
    ensures { result ≡ ordering_then (slice_cmp (slice_cmp nat_cmp) (texts_by (numbers_of is_same_dimension dimensions.now) dims.now) (texts_by (numbers_of is_same_dimension dimensions.now) other_dims.now)) (slice_cmp (slice_cmp nat_cmp) dims.now other_dims.now) }
{
    match texts_order(dimensions.distinct().len(), dims, other_dims) {
        Ordering::Equal => dims.cmp(other_dims),
        other => other,
    }
}

// How so many texts of two lists compare; an empty one stands for each that a list lacks.
fn texts_order(count: usize, texts: &[Text], others: &[Text]) -> Ordering
    ensures { result ≡ slice_cmp (slice_cmp nat_cmp) (texts_by (numbers_from count 0) texts.now) (texts_by (numbers_from count 0) others.now) }
{
    for number in 0..count {
        let order = text_at(texts, number).cmp(text_at(others, number));
        if order != Ordering::Equal {
            return order;
        }
    }
    Ordering::Equal
}
