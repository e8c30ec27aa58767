ghost use Rattle.std.specs.Prelude.{◌≡◌, ◌<◌, ◌≤◌, ◌≤ℤ◌, ◌<ℤ◌, ◌&&◌, ℕ, pos, length, map, get_or, int_le, int_lt};
ghost use Rattle.dr_time.specs.Instant.{IsInstant};
ghost use Rattle.dr_ask.specs.Asked.{asked};
ghost use Rattle.dr_answers.specs.Groups.{bucket};
ghost use Rattle.dr_image.specs.Words.{long};
ghost use Rattle.dr_columns.specs.Rows.{key_at};

use crate::cells::value_at;
use dr_ask::Query;
use dr_image::SegmentView;

/// The time of a row of an image, which lies from 0001-01-01 to 9999-12-31.
pub fn time_at(view: &SegmentView<'_>, i: usize) -> i64
    requires { i < length view.now.times }
    ensures value { result ≡ (key_at view.now i).time }
    ensures instant { IsInstant result }
{
    let _ = view.as_bytes();
    view.time(i)
}

/// Behind which row of an image the rows from one on that lie in its bucket end: the row itself and those behind it, up to the first
/// one of another bucket. Where all rows lie in one bucket it takes constant time, and else time by the rows that lie in it.
pub fn run_end(query: &Query, view: &SegmentView<'_>, from: usize) -> usize
    requires { from < length view.now.times }
    ensures more { from < result }
    ensures within { result ≤ length view.now.times }
    ensures same { (i : ℕ) → from ≤ i → i < result → bucket (asked query.now) (key_at view.now i).time ≡ bucket (asked query.now) (key_at view.now from).time }
{
    let count = view.row_count();
    if query.granularity.is_all() {
        return count;
    }
    let time = time_at(view, from);
    let start = query.granularity.truncate(time);
    let end = query.granularity.bucket_end(time);
    if lies_between(start, end, view.min_time()) && lies_between(start, end, view.max_time()) {
        return count;
    }
    end_between(view.times(), start, end, from + 1)
}

fn lies_between(start: i64, end: i64, time: i64) -> bool
    ensures { result ≡ (int_le start time && int_lt time end) }
{
    start <= time && time < end
}

// Behind which place the times from one on that lie between two times end.
fn end_between(times: &[[u8; 8]], start: i64, end: i64, from: usize) -> usize
    requires { from ≤ length times.now }
    ensures more { from ≤ result }
    ensures within { result ≤ length times.now }
    ensures between { (i : ℕ) → from ≤ i → i < result → (start ≤ℤ get_or (map long times.now) i (pos 0)) × (get_or (map long times.now) i (pos 0) <ℤ end) }
{
    let mut to = from;
    while to < times.len() {
        if !lies_between(start, end, value_at(times, to)) {
            return to;
        }
        to += 1;
    }
    to
}
