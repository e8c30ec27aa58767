use dr_filter::FilterTree;
use dr_predicate::ValueTest;

// How many bytes a pattern has at least that is asked of many rows at once, though it is alone: then memory may be taken for each text
// that is as long, and going from place to place would take long.
const LONG: usize = 1024;

// Whether a filter has a long pattern. It takes time by the tests of the filter.
#[cycle(looking)]
pub fn has_long_pattern(filter: &FilterTree) -> bool {
    match filter {
        FilterTree::Dimension(test) => is_long(&test.test),
        FilterTree::Interval(_) => false,
        FilterTree::And(filters) => one_has_long_pattern(filters.as_slice()),
        FilterTree::Or(filters) => one_has_long_pattern(filters.as_slice()),
        FilterTree::Not(filter) => has_long_pattern(filter),
    }
}

#[cycle(looking)]
fn one_has_long_pattern(filters: &[FilterTree]) -> bool {
    for filter in filters {
        if has_long_pattern(filter) {
            return true;
        }
    }
    false
}

fn is_long(test: &ValueTest) -> bool {
    match test {
        ValueTest::Like(pattern) => pattern.as_str().len() >= LONG,
        _ => false,
    }
}
