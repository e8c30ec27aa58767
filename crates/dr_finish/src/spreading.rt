ghost use Rattle.std.specs.Prelude.{◌≡◌, [], true, IfOk, map};
ghost use Rattle.dr_outputs.specs.Numbered.{text_at};
ghost use Rattle.dr_outputs.specs.Numbered.{numbers_by, texts_by};
ghost use Rattle.dr_answers.specs.Spread.{spread_over};
ghost use Rattle.dr_finish.specs.RowOrder.{numbers_from, spread_row};

use dr_answers::ResultRow;
use dr_ask::{Aggregations, Dimensions};
use dr_base::{Numbers, Row, Text, Texts};
use dr_outputs::number_at;
use std::alloc::{AllocError, Global};

/// Rows of a partial result as groups, each with a value for each dimension and each aggregation. Where these differ, nothing is
/// copied. The only error is that memory ran out. It takes time and memory by the values.
pub fn spread_rows(
    alloc: Global,
    dimensions: &Dimensions,
    aggregations: &Aggregations,
    rows: Vec<Row>,
) -> Result<Vec<ResultRow>, AllocError>
    ensures { IfOk result (λ groups. groups.items ≡ map (spread_row dimensions.now aggregations.now) rows.items) }
{
    let mut groups = Vec::with_capacity(alloc, rows.len())?;
    for row in rows {
        groups.push(spread_row(alloc, dimensions, aggregations, row)?)?;
    }
    Ok(groups)
}

fn spread_row(
    alloc: Global,
    dimensions: &Dimensions,
    aggregations: &Aggregations,
    row: Row,
) -> Result<ResultRow, AllocError>
    ensures { IfOk result (λ group. group ≡ spread_row dimensions.now aggregations.now row) }
{
    let key = row.key;
    Ok(ResultRow {
        time: key.time,
        dims: spread_texts(alloc, dimensions.numbers(), key.dims)?,
        values: spread_numbers(alloc, aggregations.numbers(), row.metrics)?,
    })
}

/// Buckets of a timeseries, each with a value for each aggregation, as `spread_rows` spreads groups.
pub fn spread_buckets(
    alloc: Global,
    aggregations: &Aggregations,
    buckets: Vec<ResultRow>,
) -> Result<Vec<ResultRow>, AllocError>
    ensures { IfOk result (λ groups. groups.items ≡ map (spread_over [] aggregations.now) buckets.items) }
{
    let mut groups = Vec::with_capacity(alloc, buckets.len())?;
    for bucket in buckets {
        groups.push(ResultRow {
            time: bucket.time,
            dims: Texts::new(alloc),
            values: spread_numbers(alloc, aggregations.numbers(), bucket.values)?,
        })?;
    }
    Ok(groups)
}

// The texts of these numbers, from 0; the empty text where there is none.
fn spread_texts(alloc: Global, numbers: &[usize], texts: Texts) -> Result<Texts, AllocError>
    ensures { IfOk result (λ spread. spread ≡ texts_by numbers.now texts) }
{
    if are_all(numbers, texts.len()) {
        return Ok(texts);
    }
    let mut spread = Vec::with_capacity(alloc, numbers.len())?;
    let all = texts.as_slice();
    for number in numbers {
        spread.push(text_copy(alloc, all, *number)?)?;
    }
    Ok(Texts::from_vec(spread))
}

fn text_copy(alloc: Global, texts: &[Text], number: usize) -> Result<Text, AllocError>
    ensures { IfOk result (λ text. text ≡ text_at number texts.now) }
{
    match texts.get(number) {
        Some(text) => text.copy(),
        None => Text::from_str(alloc, ""),
    }
}

// The values of these numbers, from 0; 0 where there is none.
fn spread_numbers(alloc: Global, numbers: &[usize], values: Numbers) -> Result<Numbers, AllocError>
    ensures { IfOk result (λ spread. spread ≡ numbers_by numbers.now values) }
{
    if are_all(numbers, values.len()) {
        return Ok(values);
    }
    let mut spread = Vec::with_capacity(alloc, numbers.len())?;
    let all = values.as_slice();
    for number in numbers {
        spread.push(number_at(all, *number))?;
    }
    Ok(Numbers::from_vec(spread))
}

// Whether these are so many numbers, each its own place.
fn are_all(numbers: &[usize], count: usize) -> bool
    ensures { result ≡ true → numbers.now ≡ numbers_from count 0 }
{
    if numbers.len() != count {
        return false;
    }
    for (place, number) in numbers.iter().enumerate() {
        if *number != place {
            return false;
        }
    }
    true
}
