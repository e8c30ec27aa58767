ghost use Rattle.std.specs.Prelude.{◌≡◌, ◌≤ℤ◌, IfSome};
ghost use Rattle.std.specs.Int.{int_max, int_min};
ghost use Rattle.std.specs.Iterator.{YieldsFirst, item_count};
ghost use Rattle.dr_time.specs.Instant.{first_instant, last_instant};
ghost use Rattle.dr_gran.specs.Buckets.{buckets_of, first_common as first_common_of};

use crate::gran::Gran;
use dr_time::{FIRST_INSTANT, LAST_INSTANT, Union};
use std::marker::Model;

/// The buckets that hold a millisecond both of a union of intervals and of a span of times, by their starts, rising.
/// A contract sees it as the list of those that are still to come.
///
/// Each is found from the end of the one before, in time that depends on the number of intervals alone.
#[derive(Drop)]
pub struct Buckets<'a> {
    gran: Gran,
    union: &'a Union,
    from: i64,
    to: i64,
    left: usize,
}

impl<'a> Model for Buckets<'a> {
    ghost use Rattle.std.specs.Prelude.{ℤ, List, ◌≤ℤ◌};
    ghost use Rattle.dr_time.specs.Instant.{first_instant, last_instant};
    ghost use Rattle.dr_gran.specs.Buckets.{buckets_of};

    ghost Value = { List ℤ };

    ghost view = { λ b. buckets_of b.left b.gran b.union.now b.from b.to };

    ghost invariant = { λ b. (first_instant ≤ℤ b.from) × (b.to ≤ℤ last_instant) };
}

impl<'a> Buckets<'a> {
    /// The first buckets, at most `bound` of them, of the union's times from `from` to `to`, both included, in milliseconds
    /// since 1970-01-01T00:00:00Z. Of this span only what lies from 0001-01-01 to 9999-12-31 counts.
    /// The one bucket of `all` starts where the union does.
    pub fn new(gran: Gran, union: &'a Union, from: i64, to: i64, bound: usize) -> Buckets<'a>
        ensures { result ≡ buckets_of bound gran union.now (int_max from first_instant) (int_min to last_instant) }
    {
        Buckets {
            gran,
            union,
            from: from.max(FIRST_INSTANT),
            to: to.min(LAST_INSTANT),
            left: bound,
        }
    }
}

impl<'a> Iterator for Buckets<'a> {
    type Item = i64;

    ghost next_gives = { YieldsFirst (λ b. b) };

    ghost remaining = { item_count (λ b. b) };

    fn next(&mut self) -> Option<i64> {
        if self.left == 0 {
            return None;
        }
        let time = first_common(self.union, self.from, self.to)?;
        if self.gran.is_all() {
            self.left = 0;
            return self.union.start();
        }
        let start = self.gran.truncate(time);
        let end = self.gran.bucket_end(time);
        self.left -= 1;
        self.from = end;
        Some(start)
    }
}

/// The first time of the union from `from` to `to`, both included.
fn first_common(union: &Union, from: i64, to: i64) -> Option<i64>
    ensures value { result ≡ first_common_of union.now from to }
    ensures low { IfSome result (λ t. from ≤ℤ t) }
    ensures high { IfSome result (λ t. t ≤ℤ to) }
{
    union.first_from(from).filter(|time| *time <= to)
}
