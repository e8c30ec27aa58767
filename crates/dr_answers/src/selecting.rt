ghost use Rattle.std.specs.Prelude.{◌≡◌, option_map};
ghost use Rattle.dr_filter.specs.Condition.{condition_in};
ghost use Rattle.dr_time.specs.Instant.{IsInstant};
ghost use Rattle.dr_gran.specs.Buckets as gran;
ghost use Rattle.dr_ask.specs.Asked.{asked};
ghost use Rattle.dr_answers.specs.Selection.{selects as selects_of, passes as passes_of};

use dr_ask::Query;
use dr_base::Key;
use dr_filter::Filter;

/// Whether a query selects the rows of a key: its time, which is truncated, lies in one of the query's intervals, and the key
/// passes the query's filter. It takes no memory, and time logarithmic in the number of the intervals and by the tests of the filter.
pub fn selects(query: &Query, key: &Key) -> bool
    ensures { result ≡ selects_of (asked query.now) key.now }
{
    query.intervals.contains(key.time) && passes(&query.filter, key)
}

fn passes(filter: &Option<Filter>, key: &Key) -> bool
    ensures { result ≡ passes_of (option_map condition_in filter.now) key.now }
{
    match filter {
        Some(filter) => filter.matches(key.time, key.dims.as_slice()),
        None => true,
    }
}

/// The start of the bucket of a query in which a time from 0001-01-01 to 9999-12-31 lies, in milliseconds since
/// 1970-01-01T00:00:00Z. With granularity `all` it is the start of the union of the intervals, none where that is empty. It
/// takes constant time and no memory.
pub fn bucket_of(query: &Query, time: i64) -> Option<i64>
    requires { IsInstant time }
    ensures { result ≡ gran.bucket query.now.granularity query.now.intervals time }
{
    if query.granularity.is_all() {
        query.intervals.start()
    } else {
        Some(query.granularity.truncate(time))
    }
}
