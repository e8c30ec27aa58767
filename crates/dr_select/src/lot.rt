ghost use Rattle.std.specs.Prelude.{◌≡◌, map, unwrap_or, IfOk, IfSome};
ghost use Rattle.std.specs.List.{All};
ghost use Rattle.dr_select.specs.Rows.{value_of};

use crate::asked_for::AskedFor;
use crate::bounds::letter_bytes;
use crate::placed_letters::PlacedLetters;
use crate::placed_order::PlacedOrder;
use dr_letters::LetterRows;
use dr_predicate::value_at;
use dr_rollup::KeyOf;
use dr_rowindex::{NumberOrder, TextOrder};
use std::alloc::{AllocError, Global};

/// Rows of which a filter is asked, and these in the order of their values in each dimension that it often asks for, and of their times,
/// where it often asks for these; and with the characters of their values in each dimension that it often asks by a pattern.
#[derive(Drop)]
pub struct Lot<'a> {
    pub rows: &'a [KeyOf<'a>],
    orders: Vec<PlacedOrder<'a>>,
    letters: Vec<PlacedLetters<'a>>,
    times: Option<NumberOrder>,
    ghost values: { All (λ o. o.order ≡ map (value_of o.place) rows.now) orders.items },
    ghost read: { All (λ l. l.letters.0 ≡ map (value_of l.place) rows.now) letters.items },
    ghost held: { unwrap_or times (map (λ r. r.time) rows.now) ≡ map (λ r. r.time) rows.now },
}

impl<'a> Lot<'a> {
    // The rows, in each order that is often asked for.
    pub(crate) fn of(
        alloc: Global,
        rows: &'a [KeyOf<'a>],
        asked: &AskedFor,
    ) -> Result<Lot<'a>, AllocError>
        ensures { IfOk result (λ lot. lot.rows.now ≡ rows.now) }
    {
        let places = asked.places.often(alloc)?;
        let orders = orders_of(alloc, rows, places.as_slice())?;
        let patterns = asked.patterns.often(alloc)?;
        let letters = letters_of(alloc, rows, patterns.as_slice())?;
        let times = times_of(alloc, rows, asked.asks_times_often())?;
        Ok(Lot {
            rows,
            orders,
            letters,
            times,
        })
    }

    // The rows in the order of their values at a place, where a filter often asks for it.
    pub(crate) fn order_at(&self, place: Option<usize>) -> Option<&TextOrder<'a>>
        ensures { IfSome result (λ o. o.now ≡ map (value_of place) self.now.rows.now) }
    {
        for placed in self.orders.as_slice() {
            if placed.place == place {
                return Some(&placed.order);
            }
        }
        None
    }

    // The rows with the characters of their values at a place, where a filter often asks for it by a pattern.
    pub(crate) fn letters_at(&self, place: Option<usize>) -> Option<&LetterRows<'a>>
        ensures { IfSome result (λ l. l.now.0 ≡ map (value_of place) self.now.rows.now) }
    {
        for read in self.letters.as_slice() {
            if read.place == place {
                return Some(&read.letters);
            }
        }
        None
    }

    // The rows in the order of their times, where a filter often asks for these.
    pub(crate) fn times(&self) -> Option<&NumberOrder>
        ensures { IfSome result (λ t. t.now ≡ map (λ r. r.time) self.now.rows.now) }
    {
        self.times.as_ref()
    }
}

fn orders_of<'a>(
    alloc: Global,
    rows: &'a [KeyOf<'a>],
    places: &[usize],
) -> Result<Vec<PlacedOrder<'a>>, AllocError>
    ensures { IfOk result (λ orders. All (λ o. o.order ≡ map (value_of o.place) rows.now) orders.items) }
{
    let mut orders = Vec::with_capacity(alloc, places.len())?;
    for place in places {
        let place = Some(*place);
        let order = TextOrder::of(alloc, values_at(alloc, rows, place)?)?;
        orders.push(PlacedOrder { place, order })?;
    }
    Ok(orders)
}

// The characters of the values at some places.
fn letters_of<'a>(
    alloc: Global,
    rows: &'a [KeyOf<'a>],
    places: &[usize],
) -> Result<Vec<PlacedLetters<'a>>, AllocError>
    ensures { IfOk result (λ found. All (λ l. l.letters.0 ≡ map (value_of l.place) rows.now) found.items) }
{
    let mut found = Vec::with_capacity(alloc, places.len())?;
    for place in places {
        let place = Some(*place);
        let values = values_at(alloc, rows, place)?;
        let most = letter_bytes(places.len(), values.as_slice());
        let letters = LetterRows::of(alloc, values, most)?;
        found.push(PlacedLetters { place, letters })?;
    }
    Ok(found)
}

// The value of each row at a place among the dimensions.
fn values_at<'a>(
    alloc: Global,
    rows: &'a [KeyOf<'a>],
    place: Option<usize>,
) -> Result<Vec<&'a str>, AllocError>
    ensures { IfOk result (λ values. map (λ v. v.now) values.items ≡ map (value_of place) rows.now) }
{
    let mut values = Vec::with_capacity(alloc, rows.len())?;
    for row in rows {
        values.push(value_at(row.dims, place))?;
    }
    Ok(values)
}

// The rows in the order of their times, where that is wanted.
fn times_of(
    alloc: Global,
    rows: &[KeyOf<'_>],
    wanted: bool,
) -> Result<Option<NumberOrder>, AllocError>
    ensures { IfOk result (λ times. unwrap_or times (map (λ r. r.time) rows.now) ≡ map (λ r. r.time) rows.now) }
{
    if !wanted {
        return Ok(None);
    }
    let mut times = Vec::with_capacity(alloc, rows.len())?;
    for row in rows {
        times.push(row.time)?;
    }
    Ok(Some(NumberOrder::of(alloc, times)?))
}
