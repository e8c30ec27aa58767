use dr_time::{Interval, Union};
use std::alloc::Global;
use std::test::Fail;

// The times from 0 to 9 and from 20 to 29, without those from 5 to 21 and without 25.
fn left(alloc: Global) -> Result<Union, Fail> {
    let some = [
        Interval { start: 20, end: 30 },
        Interval { start: 0, end: 10 },
    ];
    let others = [
        Interval { start: 25, end: 26 },
        Interval { start: 5, end: 15 },
        Interval { start: 10, end: 22 },
    ];
    Ok(Union::of(alloc, &some)?.difference(&Union::of(alloc, &others)?)?)
}

#[test]
fn finds_the_times_that_another_union_lacks(rt: HostRuntime) -> Result<(), Fail> {
    let left = left(rt.alloc())?;
    let mut from = i64::MIN;
    for time in [0, 1, 2, 3, 4, 22, 23, 24, 26, 27, 28, 29] {
        assert!(rt; left.first_from(from) == Some(time));
        from = time.saturating_add(1);
    }
    assert!(rt; left.first_from(from) == None);
    Ok(())
}
