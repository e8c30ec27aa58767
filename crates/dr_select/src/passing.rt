ghost use Rattle.std.specs.Prelude.{◌≡◌, length, OnOk};
ghost use Rattle.dr_predicate.specs.Match.{passes};
ghost use Rattle.dr_predicate.specs.Within.{some_within};
ghost use Rattle.dr_rowindex.specs.Orders.{Adds};

use dr_predicate::{Ranges, ValueTest};
use dr_rowindex::{RowSet, TextOrder, asks_for_many};
use std::alloc::{AllocError, Global};

/// Adds the rows whose value passes a test to a set, of which there are so many: for each of few texts and ranges by two searches, and of
/// many of them, and for patterns, by the values that differ. The only error is that memory ran out.
pub fn insert_passing(
    alloc: Global,
    order: &TextOrder<'_>,
    rows: usize,
    test: &ValueTest,
    set: &mut RowSet,
) -> Result<(), AllocError>
    requires { length set.old ≡ length order.now }
    ensures { OnOk result (Adds (passes test.now) order.now set.old set.new) }
{
    if asks_for_many(asked_values(test), rows) {
        order.insert_passing(test, set);
        return Ok(());
    }
    match test {
        ValueTest::Equals(text) => order.insert_equal(alloc, text.as_str(), set)?,
        ValueTest::Among(texts) => order.insert_among(alloc, texts, set)?,
        ValueTest::Within(bounds) => order.insert_within(bounds, set),
        ValueTest::WithinOne(ranges) => insert_within_one(order, ranges, set),
        _ => order.insert_passing(test, set),
    }
    Ok(())
}

// How many texts or ranges a test asks for together.
fn asked_values(test: &ValueTest) -> usize {
    match test {
        ValueTest::Among(texts) => texts.as_texts().len(),
        ValueTest::WithinOne(ranges) => ranges.as_bounds().len(),
        _ => 0,
    }
}

fn insert_within_one(order: &TextOrder<'_>, ranges: &Ranges, set: &mut RowSet)
    requires { length set.old ≡ length order.now }
    ensures { Adds (some_within ranges.now) order.now set.old set.new }
{
    for bounds in ranges.as_bounds() {
        order.insert_within(bounds, set);
    }
}
