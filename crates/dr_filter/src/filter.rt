ghost use Rattle.std.specs.Prelude.{◌≡◌, IfOk};
ghost use Rattle.dr_filter.specs.Condition.{condition_in, matches as matches_of};
ghost use Rattle.dr_filter.specs.Same.{KeepSame};

use crate::asking::asked_of;
use crate::filter_tree::FilterTree;
use dr_base::Text;
use std::alloc::{AllocError, Global};
use std::marker::Model;

/// A filter of rows, made for one schema (Apache Druid documentation, query filters): what is asked of the time and of the
/// dimension values of a row. A contract sees it as it was spelled, and by that the condition that it stands
/// for, `condition_in`. Beside that it is kept in a form that asks less of each row.
#[derive(Drop)]
pub struct Filter {
    spelled: FilterTree,
    asked: FilterTree,
    tests: usize,
}

impl Model for Filter {
    ghost use Rattle.std.specs.Coded.{codes};
    ghost use Rattle.dr_filter.specs.contracts.filter_tree.FilterTree as tree;
    ghost use Rattle.dr_filter.specs.declared.filter_tree.FilterTree.{FilterTree};
    ghost use Rattle.dr_filter.specs.Condition.{condition_in};
    ghost use Rattle.dr_filter.specs.Same.{KeepSame};

    ghost Value = { FilterTree };

    ghost coded = { Prim.hlevel (codes, tree.the_row.coded) };

    ghost view = { λ f. f.spelled };

    ghost invariant = { λ f. KeepSame (condition_in f.asked) (condition_in f.spelled) };
}

impl Filter {
    // The filter that is so spelled.
    pub(crate) fn of(alloc: Global, spelled: FilterTree) -> Result<Filter, AllocError>
        ensures { IfOk result (λ f. f ≡ spelled) }
    {
        let asked = asked_of(alloc, &spelled)?;
        let tests = asked.test_count();
        Ok(Filter {
            spelled,
            asked,
            tests,
        })
    }

    /// Whether a row of this time, in milliseconds since the epoch, and these dimension values, in the order of the schema,
    /// meets the filter. It takes no memory, and time by the tests of [`Filter::asked`], each as
    /// [`ValueTest::passes`](dr_predicate::ValueTest::passes), which says where a pattern takes more than the bytes of it and of the
    /// value together. An `interval` takes time logarithmic in the number of its intervals.
    pub fn matches(&self, time: i64, dims: &[Text]) -> bool
        ensures { result ≡ matches_of time dims.now (condition_in self.now) }
    {
        self.asked.matches(time, dims)
    }

    /// A filter that keeps the same rows, with few tests: whatever `and`, `or` and `not` make of the `selector`s, `in`s and `bound`s of
    /// one dimension is one test, and of intervals one `interval`. The `like`s of a dimension of which one is to fit, or none, are one
    /// test too, and a test of a column that the schema lacks is answered. It takes constant time.
    pub fn asked(&self) -> &FilterTree
        ensures { KeepSame (condition_in result.now) (condition_in self.now) }
    {
        &self.asked
    }

    /// How many tests of dimensions and of intervals [`Filter::asked`] has. What a filter keeps doesn't depend on it. It takes constant
    /// time.
    pub fn test_count(&self) -> usize {
        self.tests
    }
}
