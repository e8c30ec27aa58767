ghost use Rattle.std.specs.Prelude.{◌≡◌, ◌&&◌, ℕ, ℤ, List, true, IfOk, OnOk};
ghost use Rattle.dr_time.specs.Union.{union_holds};
ghost use Rattle.dr_predicate.specs.Match.{holds_of};
ghost use Rattle.dr_filter.specs.Condition.{condition_in, matches};
ghost use Rattle.dr_base.specs.Told.{told};
ghost use Rattle.dr_filter.specs.Parts.{parts_match};

use crate::filter_tree::FilterTree;
use crate::members::{all_of, put_filters, put_tests, put_times};
use dr_predicate::{DimensionTest, DimensionTests};
use dr_time::Union;
use std::alloc::{AllocError, Global};

/// Conditions that are all to hold, by what they ask: tests of dimensions of which each is to hold, or not to; intervals of which
/// all are to hold the time, or none; and filters.
#[derive(Drop)]
pub struct Parts {
    pub tests: DimensionTests,
    pub times: Vec<Union>,
    pub no_times: Vec<Union>,
    pub others: Vec<FilterTree>,
}

impl Parts {
    // No condition.
    pub(crate) fn new(alloc: Global) -> Parts
        ensures { (time : ℤ) (dims : List (List ℕ)) → parts_match time dims result ≡ true }
    {
        Parts {
            tests: DimensionTests::new(alloc),
            times: Vec::new(alloc),
            no_times: Vec::new(alloc),
            others: Vec::new(alloc),
        }
    }

    // Adds that a test holds, or that it doesn't.
    pub(crate) fn add_test(
        &mut self,
        alloc: Global,
        test: DimensionTest,
        holds: bool,
    ) -> Result<(), AllocError>
        ensures { OnOk result ((time : ℤ) (dims : List (List ℕ)) → parts_match time dims self.new ≡ (parts_match time dims self.old && told holds (holds_of test dims))) }
    {
        self.tests.add(alloc, test, holds)?;
        Ok(())
    }

    // Adds that the time lies in one of some intervals, or in none of them.
    pub(crate) fn add_time(&mut self, union: Union, holds: bool) -> Result<(), AllocError>
        ensures { OnOk result ((time : ℤ) (dims : List (List ℕ)) → parts_match time dims self.new ≡ (parts_match time dims self.old && told holds (union_holds union time))) }
    {
        if holds {
            self.times.push(union)?;
        } else {
            self.no_times.push(union)?;
        }
        Ok(())
    }

    // Adds a filter that was made of parts, or that it doesn't hold: to the tests or the intervals, where it is one of them.
    pub(crate) fn add_made(
        &mut self,
        alloc: Global,
        filter: FilterTree,
        holds: bool,
    ) -> Result<(), AllocError>
        ensures { OnOk result ((time : ℤ) (dims : List (List ℕ)) → parts_match time dims self.new ≡ (parts_match time dims self.old && told holds (matches time dims (condition_in filter)))) }
    {
        match filter {
            FilterTree::Not(denied) => self.add_one(alloc, Box::into_inner(denied), !holds),
            other => self.add_one(alloc, other, holds),
        }
    }

    fn add_one(&mut self, alloc: Global, filter: FilterTree, holds: bool) -> Result<(), AllocError>
        ensures { OnOk result ((time : ℤ) (dims : List (List ℕ)) → parts_match time dims self.new ≡ (parts_match time dims self.old && told holds (matches time dims (condition_in filter)))) }
    {
        match filter {
            FilterTree::Dimension(test) => self.add_test(alloc, test, holds),
            FilterTree::Interval(union) => self.add_time(union, holds),
            other => self.add_nest(alloc, other, holds),
        }
    }

    // What always holds is known, and any other filter stands apart.
    fn add_nest(&mut self, alloc: Global, filter: FilterTree, holds: bool) -> Result<(), AllocError>
        ensures { OnOk result ((time : ℤ) (dims : List (List ℕ)) → parts_match time dims self.new ≡ (parts_match time dims self.old && told holds (matches time dims (condition_in filter)))) }
    {
        if always_holds(&filter) {
            self.tests.add_known(holds);
            return Ok(());
        }
        self.add_other(alloc, filter, holds)
    }

    fn add_other(
        &mut self,
        alloc: Global,
        filter: FilterTree,
        holds: bool,
    ) -> Result<(), AllocError>
        ensures { OnOk result ((time : ℤ) (dims : List (List ℕ)) → parts_match time dims self.new ≡ (parts_match time dims self.old && told holds (matches time dims (condition_in filter)))) }
    {
        if holds {
            self.others.push(filter)?;
        } else {
            self.others.push(filter.denied(alloc)?)?;
        }
        Ok(())
    }

    // One filter for all of them, in which the tests of a dimension are joined and the intervals are one.
    pub(crate) fn made(self, alloc: Global) -> Result<FilterTree, AllocError>
        ensures { IfOk result (λ f. (time : ℤ) (dims : List (List ℕ)) → matches time dims (condition_in f) ≡ parts_match time dims self) }
    {
        let Parts {
            tests,
            times,
            no_times,
            others,
        } = self;
        let never = tests.never_hold();
        let mut members = Vec::new(alloc);
        put_tests(alloc, &mut members, tests.told(alloc)?)?;
        if never {
            return Ok(all_of(members));
        }
        put_times(alloc, &mut members, times.as_slice(), no_times.as_slice())?;
        put_filters(&mut members, others)?;
        Ok(all_of(members))
    }
}

// Whether a filter is an `and` of nothing.
fn always_holds(filter: &FilterTree) -> bool
    ensures { result ≡ true → (time : ℤ) (dims : List (List ℕ)) → matches time dims (condition_in filter.now) ≡ true }
{
    match filter {
        FilterTree::And(filters) => filters.is_empty(),
        _ => false,
    }
}
