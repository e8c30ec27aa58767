use dr_gran::{Buckets, Gran};
use dr_time::{Interval, Union};
use std::alloc::Global;
use std::test::Fail;

const HOUR: i64 = 3_600_000;

const FIRST: i64 = -62_135_596_800_000;

const LAST: i64 = 253_402_300_799_999;

// Half an hour before the epoch to one millisecond of its second hour, and the hour from 05:00 on.
fn union(alloc: Global) -> Result<Union, Fail> {
    let intervals = [
        Interval {
            start: 5 * HOUR,
            end: 6 * HOUR,
        },
        Interval {
            start: -HOUR / 2,
            end: HOUR + 1,
        },
        Interval {
            start: 9 * HOUR,
            end: 9 * HOUR,
        },
    ];
    Ok(Union::of(alloc, &intervals)?.copy()?)
}

#[test]
fn gives_filled_buckets(rt: HostRuntime) -> Result<(), Fail> {
    let union = union(rt.alloc())?;
    let mut hours = Buckets::new(Gran::Hour, &union, FIRST, LAST, 4);
    for start in [-HOUR, 0, HOUR, 5 * HOUR] {
        assert!(rt; hours.next() == Some(start));
    }
    assert!(rt; hours.next() == None);
    Ok(())
}
