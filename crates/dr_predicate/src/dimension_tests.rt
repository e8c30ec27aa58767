ghost use Rattle.std.specs.Prelude.{◌≡◌, ◌&&◌, true, ℕ, List, IfSome, OnOk};
ghost use Rattle.std.specs.List.{list_all};
ghost use Rattle.dr_base.specs.Told.{told};
ghost use Rattle.dr_predicate.specs.Asked.{asked_at, tests_hold, IsAskedAt};
ghost use Rattle.dr_predicate.specs.Match.{holds_of, passes, value_at};

use crate::asked_dimension::AskedDimension;
use crate::dimension_test::DimensionTest;
use crate::value_test::ValueTest;
use crate::value_tests::ValueTests;
use std::alloc::{AllocError, Global};

/// Tests of dimensions of which each is to hold, or not to, gathered dimension by dimension. A test of a column that the schema lacks
/// is answered at once. Contracts see whether the dimension values of a row are as asked, `tests_hold`.
#[derive(Drop)]
pub struct DimensionTests {
    pub(crate) asked: Vec<AskedDimension>,
    // Whether no row is as asked.
    pub(crate) never: bool,
}

impl DimensionTests {
    /// No test. It takes no memory yet.
    pub fn new(alloc: Global) -> DimensionTests
        ensures { (dims : List (List ℕ)) → tests_hold dims result ≡ true }
    {
        DimensionTests {
            asked: Vec::new(alloc),
            never: false,
        }
    }

    /// Asks that a test holds, or that it doesn't. The only error is that memory ran out; what is asked then isn't told, so these are
    /// to be let go. It takes expected time and memory by the bytes of the test, and time by the number of dimensions that are named.
    pub fn add(&mut self, alloc: Global, test: DimensionTest, holds: bool) -> Result<(), AllocError>
        ensures { OnOk result ((dims : List (List ℕ)) → tests_hold dims self.new ≡ (tests_hold dims self.old && told holds (holds_of test dims))) }
    {
        let DimensionTest { place, test } = test;
        if place.is_none() {
            self.add_known(test.passes("") == holds);
            return Ok(());
        }
        put(alloc, &mut self.asked, place, test, holds)?;
        Ok(())
    }

    /// Asks what is known to be so, or not to be so, of each row. It takes constant time.
    pub fn add_known(&mut self, known: bool)
        ensures { (dims : List (List ℕ)) → tests_hold dims self.new ≡ (tests_hold dims self.old && known) }
    {
        self.never = self.never || !known;
    }
}

// Asks one thing more of a dimension: with what is asked of it already, where there is anything.
fn put(
    alloc: Global,
    asked: &mut Vec<AskedDimension>,
    place: Option<usize>,
    test: ValueTest,
    holds: bool,
) -> Result<(), AllocError>
    ensures { OnOk result ((dims : List (List ℕ)) → list_all (asked_at dims) asked.new.items ≡ (list_all (asked_at dims) asked.old.items && told holds (passes test (value_at place dims)))) }
{
    if let Some(i) = place_among(asked.as_slice(), place) {
        let there = &mut asked[i];
        there.tests.add(alloc, test, holds)?;
        return Ok(());
    }
    let mut tests = ValueTests::new(alloc);
    tests.add(alloc, test, holds)?;
    asked.push(AskedDimension { place, tests })?;
    Ok(())
}

// The place of what is asked of a dimension.
fn place_among(asked: &[AskedDimension], place: Option<usize>) -> Option<usize>
    ensures { IfSome result (λ i. IsAskedAt asked.now i place) }
{
    for i in 0..asked.len() {
        if asked[i].place == place {
            return Some(i);
        }
    }
    None
}
