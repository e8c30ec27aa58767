ghost use Rattle.std.specs.Prelude.{◌≡◌, IfOk};
ghost use Rattle.dr_filter.specs.Condition.{condition_in, dimension, interval, opposite, conditions_in, matches as matches_of, every_matches as every_matches_of, some_matches as some_matches_of};

use dr_base::Text;
use dr_predicate::DimensionTest;
use dr_time::Union;
use std::alloc::{AllocError, Global};

/// What is asked of the time and of the dimension values of a row: a test, or filters and how they are joined. Contracts see it as
/// the condition that it stands for, `condition_in`.
#[derive(Drop)]
pub enum FilterTree {
    /// `selector`, `in`, `bound`, `like`: the value of a dimension passes a test.
    Dimension(DimensionTest),
    /// `interval`: the time lies in one of some intervals.
    Interval(Union),
    /// `and`: all of these hold, as they do where there are none.
    And(Vec<FilterTree>),
    /// `or`: one of these holds, as none does where there are none.
    Or(Vec<FilterTree>),
    /// `not`: this doesn't hold.
    Not(Box<FilterTree>),
}

impl FilterTree {
    // That the value of a dimension passes a test.
    pub(crate) fn of_test(test: DimensionTest) -> FilterTree
        ensures { condition_in result ≡ dimension test }
    {
        FilterTree::Dimension(test)
    }

    // That the time lies in one of some intervals.
    pub(crate) fn of_intervals(union: Union) -> FilterTree
        ensures { condition_in result ≡ interval union }
    {
        FilterTree::Interval(union)
    }

    // That this doesn't hold.
    pub(crate) fn denied(self, alloc: Global) -> Result<FilterTree, AllocError>
        ensures { IfOk result (λ f. condition_in f ≡ opposite (condition_in self)) }
    {
        Ok(FilterTree::Not(Box::new(alloc, self)?))
    }

    // How many tests of dimensions and of intervals there are.
    #[cycle(counting)]
    pub(crate) fn test_count(&self) -> usize {
        match self {
            FilterTree::Dimension(_) => 1,
            FilterTree::Interval(_) => 1,
            FilterTree::And(filters) => test_count_of(filters.as_slice()),
            FilterTree::Or(filters) => test_count_of(filters.as_slice()),
            FilterTree::Not(filter) => filter.test_count(),
        }
    }

    // Whether a row meets the filter.
    #[cycle(matching)]
    pub(crate) fn matches(&self, time: i64, dims: &[Text]) -> bool
        ensures { result ≡ matches_of time dims.now (condition_in self.now) }
    {
        match self {
            FilterTree::Dimension(test) => test.holds_of(dims),
            FilterTree::Interval(union) => union.contains(time),
            FilterTree::And(filters) => every_matches(filters.as_slice(), time, dims),
            FilterTree::Or(filters) => some_matches(filters.as_slice(), time, dims),
            FilterTree::Not(filter) => !filter.matches(time, dims),
        }
    }
}

#[cycle(counting)]
fn test_count_of(filters: &[FilterTree]) -> usize {
    let mut count = 0usize;
    for filter in filters {
        count = count.saturating_add(filter.test_count());
    }
    count
}

#[cycle(matching)]
fn every_matches(filters: &[FilterTree], time: i64, dims: &[Text]) -> bool
    ensures { result ≡ every_matches_of time dims.now (conditions_in filters.now) }
{
    for filter in filters {
        if !filter.matches(time, dims) {
            return false;
        }
    }
    true
}

#[cycle(matching)]
fn some_matches(filters: &[FilterTree], time: i64, dims: &[Text]) -> bool
    ensures { result ≡ some_matches_of time dims.now (conditions_in filters.now) }
{
    for filter in filters {
        if filter.matches(time, dims) {
            return true;
        }
    }
    false
}
