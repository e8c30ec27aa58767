ghost use Rattle.std.specs.Prelude.{◌≡◌, ◌<◌, ◌≤◌, Some, IfSome, option_map};
ghost use Rattle.dr_filter.specs.Condition.{condition_in};

use crate::long_patterns::has_long_pattern;
use dr_filter::Filter;

/// Of how many rows at most a filter is asked at once, of which each stands in the order of each dimension meanwhile.
pub const ROWS_AT_ONCE: usize = 16384;

/// From how many rows on those of one range are asked by themselves. A test costs two searches among the rows that are asked at once,
/// however many these are: among 1,024 of them a fiftieth of a comparison for each row, some 300 where a filter has 15,000 tests.
pub const ROWS_ALONE: usize = 1024;

// How many tests a filter has at least that is asked of many rows at once.
const MANY_TESTS: usize = 32;

/// Whether a filter is asked soonest of many rows at once, since it has 32 tests or more, or a pattern of 1,024 bytes or more. It takes
/// time by the tests, of which 32 at most are looked at.
pub fn is_asked_at_once(filter: &Filter) -> bool {
    filter.test_count() >= MANY_TESTS || has_long_pattern(filter.asked())
}

/// The filter, where there is one that is asked soonest of many rows at once. It takes what [`is_asked_at_once`] does.
pub fn filter_of_many(filter: &Option<Filter>) -> Option<&Filter>
    ensures { IfSome result (λ f. option_map condition_in filter.now ≡ Some (condition_in f.now)) }
{
    match filter {
        Some(filter) if is_asked_at_once(filter) => Some(filter),
        _ => None,
    }
}

/// Behind which place those of so many rows end that are asked together with the one at a place, so that the memory for them is bounded.
/// It takes constant time.
pub fn lot_end(from: usize, count: usize) -> usize
    requires { from < count }
    ensures more { from < result }
    ensures within { result ≤ count }
{
    dr_rowindex::lot_end(from, count, ROWS_AT_ONCE)
}
