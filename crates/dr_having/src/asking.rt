ghost use Rattle.std.specs.Prelude.{◌≡◌, ℕ, ℤ, List, map, not, slice_get, IfOk, OnOk};
ghost use Rattle.dr_having.specs.Asked.{asked_meets};
ghost use Rattle.dr_having.specs.Condition.{condition_in, conditions_of, meets};
ghost use Rattle.dr_having.specs.Gathered.{all_wanted, joined, AsksMore};
ghost use Rattle.dr_base.specs.Told.{told};
ghost use Rattle.dr_outputs.specs.Numbered.{numbers_by};
ghost use Rattle.dr_having.specs.Placed.{HaveNumbers};

use crate::asked_having::AskedHaving;
use crate::conjunction::Conjunction;
use crate::having::Having;
use indexmap::IndexMap;
use std::alloc::{AllocError, Global};

impl Having {
    /// What is asked of each group in the place of this condition, of groups whose outputs have values of these numbers. An `and`
    /// within an `and`, an `or` within an `or`, and by a `not` the one within the other, are taken apart, and so is one of a single
    /// condition. Whatever is asked of the aggregations with one number comes down to one set of numbers, and whatever is asked of a
    /// dimension to one set of texts, or all others, also by a nest of `and`, `or` and `not` over nothing else. The only error is
    /// that memory ran out. It takes memory for the conditions and the bytes of their texts and for a place of each aggregation, and
    /// expected time by the same for each level of nesting, of comparisons times the logarithm of how many there are: what is asked
    /// of an output already is found by hashing, and the sets of numbers of one aggregation are joined by halves.
    pub fn asked_together(
        &self,
        alloc: Global,
        numbers: &[usize],
    ) -> Result<AskedHaving, AllocError>
        ensures { IfOk result (λ h. (dims : List (List ℕ)) (values : List ℤ) → asked_meets dims (numbers_by numbers.now values) h ≡ meets dims (numbers_by numbers.now values) (condition_in self.now)) }
    {
        let places = first_places(alloc, numbers)?;
        let mut asked = Conjunction::new(alloc);
        put(alloc, &mut asked, self, places.as_slice(), true)?;
        asked.into_asked(alloc)
    }
}

// Adds that a condition holds, or that it doesn't.
#[cycle(gathering)]
fn put(
    alloc: Global,
    asked: &mut Conjunction,
    condition: &Having,
    places: &[usize],
    holds: bool,
) -> Result<(), AllocError>
    ensures { OnOk result (AsksMore places.now asked.old asked.new (λ dims values. told holds (meets dims values (condition_in condition.now)))) }
{
    match condition {
        Having::Aggregation(value) => asked.add_number(alloc, &value.placed(places), holds),
        Having::Dimension(value) => asked.add_text(alloc, value, holds),
        Having::And(conditions) => {
            put_joined(alloc, asked, conditions.as_slice(), places, true, holds)
        }
        Having::Or(conditions) => {
            put_joined(alloc, asked, conditions.as_slice(), places, false, holds)
        }
        Having::Not(inner) => put(alloc, asked, inner, places, !holds),
    }
}

// Adds that all of some conditions hold, or that one does; or that it isn't so.
#[cycle(gathering)]
fn put_joined(
    alloc: Global,
    asked: &mut Conjunction,
    conditions: &[Having],
    places: &[usize],
    all: bool,
    holds: bool,
) -> Result<(), AllocError>
    ensures { OnOk result (AsksMore places.now asked.old asked.new (λ dims values. told holds (meets dims values (joined all (conditions_of (map condition_in conditions.now)))))) }
{
    if all == holds {
        return put_each(alloc, asked, conditions, places, holds);
    }
    if conditions.len() == 1 {
        return put_each(alloc, asked, conditions, places, holds);
    }
    put_denied(alloc, asked, conditions, places, all)
}

// Adds that each of some conditions holds, or that none does.
#[cycle(gathering)]
fn put_each(
    alloc: Global,
    asked: &mut Conjunction,
    conditions: &[Having],
    places: &[usize],
    holds: bool,
) -> Result<(), AllocError>
    ensures { OnOk result (AsksMore places.now asked.old asked.new (λ dims values. all_wanted holds dims values conditions.now)) }
{
    for condition in conditions {
        put(alloc, asked, condition, places, holds)?;
    }
    Ok(())
}

// Adds that not all of some conditions hold, or that one does.
#[cycle(gathering)]
fn put_denied(
    alloc: Global,
    asked: &mut Conjunction,
    conditions: &[Having],
    places: &[usize],
    holds: bool,
) -> Result<(), AllocError>
    ensures { OnOk result (AsksMore places.now asked.old asked.new (λ dims values. not (all_wanted holds dims values conditions.now))) }
{
    let mut denied = Conjunction::new(alloc);
    put_each(alloc, &mut denied, conditions, places, holds)?;
    asked.deny(alloc, denied)
}

// Of each output the first place of one with the same number.
fn first_places(alloc: Global, numbers: &[usize]) -> Result<Vec<usize>, AllocError>
    ensures { IfOk result (λ places. HaveNumbers numbers.now places.items) }
{
    let mut places = Vec::with_capacity(alloc, numbers.len())?;
    let mut firsts = IndexMap::new(alloc);
    for (place, number) in numbers.iter().enumerate() {
        let first = *firsts.entry(*number)?.or_insert(place);
        places.push(same_place(numbers, first, place))?;
    }
    Ok(places)
}

// One place where the outputs at both have the same number, or else the other one.
fn same_place(numbers: &[usize], first: usize, place: usize) -> usize
    ensures { slice_get numbers.now result ≡ slice_get numbers.now place }
{
    if numbers.get(first) == numbers.get(place) {
        first
    } else {
        place
    }
}
