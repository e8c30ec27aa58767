ghost use Rattle.std.specs.Prelude.{◌≡◌, map, IfOk, IfSome};
ghost use Rattle.std.specs.List.{All};
ghost use Rattle.dr_outputs.specs.Numbered.{number_at, text_at};

use crate::asked_having::AskedHaving;
use crate::group_outputs::GroupOutputs;
use crate::named_outputs::NamedOutputs;
use crate::ordered_numbers::OrderedNumbers;
use crate::ordered_texts::OrderedTexts;
use dr_rowindex::{NumberOrder, TextOrder};
use std::alloc::{AllocError, Global};

/// Groups of which is asked what a `having` asks, and these in the order of the values of each output that it often asks for.
#[derive(Drop)]
pub struct GroupLot<'a> {
    pub groups: &'a [GroupOutputs<'a>],
    numbers: Vec<OrderedNumbers>,
    texts: Vec<OrderedTexts<'a>>,
    ghost by_numbers: { All (λ o. o.order ≡ map (λ g. number_at o.place g.values) groups.now) numbers.items },
    ghost by_texts: { All (λ o. o.order ≡ map (λ g. text_at o.place g.dims) groups.now) texts.items },
}

impl<'a> GroupLot<'a> {
    // The groups, in each order that is often asked for.
    pub(crate) fn of(
        alloc: Global,
        groups: &'a [GroupOutputs<'a>],
        asked: &AskedHaving,
    ) -> Result<GroupLot<'a>, AllocError>
        ensures { IfOk result (λ lot. lot.groups.now ≡ groups.now) }
    {
        let named = NamedOutputs::of(alloc, asked)?;
        let number_places = named.numbers.often(alloc)?;
        let text_places = named.texts.often(alloc)?;
        let numbers = number_orders(alloc, groups, number_places.as_slice())?;
        let texts = text_orders(alloc, groups, text_places.as_slice())?;
        Ok(GroupLot {
            groups,
            numbers,
            texts,
        })
    }

    // The groups in the order of the values of the aggregation at a place, where it is often asked for.
    pub(crate) fn numbers_at(&self, place: usize) -> Option<&NumberOrder>
        ensures { IfSome result (λ o. o.now ≡ map (λ g. number_at place g.values) self.now.groups.now) }
    {
        for ordered in self.numbers.as_slice() {
            if ordered.place == place {
                return Some(&ordered.order);
            }
        }
        None
    }

    // The groups in the order of the values of the dimension at a place, where it is often asked for.
    pub(crate) fn texts_at(&self, place: usize) -> Option<&TextOrder<'a>>
        ensures { IfSome result (λ o. o.now ≡ map (λ g. text_at place g.dims) self.now.groups.now) }
    {
        for ordered in self.texts.as_slice() {
            if ordered.place == place {
                return Some(&ordered.order);
            }
        }
        None
    }
}

fn number_orders(
    alloc: Global,
    groups: &[GroupOutputs<'_>],
    places: &[usize],
) -> Result<Vec<OrderedNumbers>, AllocError>
    ensures { IfOk result (λ orders. All (λ o. o.order ≡ map (λ g. number_at o.place g.values) groups.now) orders.items) }
{
    let mut orders = Vec::with_capacity(alloc, places.len())?;
    for place in places {
        let place = *place;
        let order = NumberOrder::of(alloc, numbers_of(alloc, groups, place)?)?;
        orders.push(OrderedNumbers { place, order })?;
    }
    Ok(orders)
}

fn numbers_of(
    alloc: Global,
    groups: &[GroupOutputs<'_>],
    place: usize,
) -> Result<Vec<i64>, AllocError>
    ensures { IfOk result (λ values. values.items ≡ map (λ g. number_at place g.values) groups.now) }
{
    let mut values = Vec::with_capacity(alloc, groups.len())?;
    for group in groups {
        values.push(group.values.at(place))?;
    }
    Ok(values)
}

fn text_orders<'a>(
    alloc: Global,
    groups: &'a [GroupOutputs<'a>],
    places: &[usize],
) -> Result<Vec<OrderedTexts<'a>>, AllocError>
    ensures { IfOk result (λ orders. All (λ o. o.order ≡ map (λ g. text_at o.place g.dims) groups.now) orders.items) }
{
    let mut orders = Vec::with_capacity(alloc, places.len())?;
    for place in places {
        let place = *place;
        let order = TextOrder::of(alloc, texts_of(alloc, groups, place)?)?;
        orders.push(OrderedTexts { place, order })?;
    }
    Ok(orders)
}

fn texts_of<'a>(
    alloc: Global,
    groups: &'a [GroupOutputs<'a>],
    place: usize,
) -> Result<Vec<&'a str>, AllocError>
    ensures { IfOk result (λ values. map (λ v. v.now) values.items ≡ map (λ g. text_at place g.dims) groups.now) }
{
    let mut values = Vec::with_capacity(alloc, groups.len())?;
    for group in groups {
        values.push(group.dims.at(place))?;
    }
    Ok(values)
}
