ghost use Rattle.std.specs.Prelude.{◌≡◌, ◌≤ℤ◌, ◌||◌, ℤ, true, IfOk, OnOk};
ghost use Rattle.std.specs.List.{AllByRecursion};
ghost use Rattle.dr_time.specs.Gaps.{AreGaps};
ghost use Rattle.dr_time.specs.Interval.{holds_time};
ghost use Rattle.dr_time.specs.Joined.{AreApart, Rise, HoldSame, longer as longer_of};
ghost use Rattle.dr_time.specs.Shared.{AreShared, AreLeft};
ghost use Rattle.dr_time.specs.Union.{HoldsAll, union_holds, union_start, union_first_from};

use crate::interval::Interval;
use std::alloc::{AllocError, Global};
use std::marker::Model;

// The times of some intervals, in intervals that hold some time each, rise, and don't touch. A contract sees the list of these.
#[derive(Debug, Drop)]
pub struct Joined(Vec<Interval>);

impl Model for Joined {
    ghost use Rattle.std.specs.Prelude.{List};
    ghost use Rattle.dr_time.specs.declared.interval.Interval.{Interval};
    ghost use Rattle.dr_time.specs.Joined.{AreApart};

    ghost Value = { List Interval };

    ghost view = { λ j. j.0.items };

    ghost invariant = { λ j. AreApart j.0.items };
}

impl Joined {
    // The times of these intervals. The only error is that memory ran out.
    pub fn of(alloc: Global, intervals: &[Interval]) -> Result<Joined, AllocError>
        ensures { IfOk result (λ joined. HoldSame joined intervals.now) }
    {
        let mut sorted = Vec::from_slice(alloc, intervals)?;
        sorted.sort_unstable_by_key(|interval| interval.start);
        Ok(Joined(join_all(alloc, sorted.as_slice())?))
    }

    // The same intervals. The only error is that memory ran out.
    pub fn copy(&self) -> Result<Joined, AllocError>
        ensures { IfOk result (λ joined. joined ≡ self.now) }
    {
        let copy = Vec::from_slice(*self.0.allocator(), self.0.as_slice())?;
        Ok(Joined(copy))
    }

    // The times that both hold. The only error is that memory ran out. It takes time and memory by the intervals of both.
    pub fn intersection(&self, other: &Joined) -> Result<Joined, AllocError>
        ensures { IfOk result (λ joined. AreShared self.now other.now joined) }
    {
        let shared = shared_of(*self.0.allocator(), self.0.as_slice(), other.0.as_slice())?;
        Ok(Joined(shared))
    }

    // The times that these hold and the other ones lack. The only error is that memory ran out. It takes time and memory by the
    // intervals of both.
    pub fn difference(&self, other: &Joined) -> Result<Joined, AllocError>
        ensures { IfOk result (λ joined. AreLeft self.now other.now joined) }
    {
        let left = left_of(*self.0.allocator(), self.0.as_slice(), other.0.as_slice())?;
        Ok(Joined(left))
    }

    // The intervals, which rise.
    pub fn intervals(&self) -> &[Interval]
        ensures { result.now ≡ self.now }
    {
        self.0.as_slice()
    }

    // Whether one of them holds this time, which is found in logarithmic time.
    pub fn contains(&self, time: i64) -> bool
        ensures { result ≡ union_holds self.now time }
    {
        let place = self.0.partition_point(|interval| interval.start <= time);
        if place == 0 {
            return false;
        }
        self.0[place - 1].contains(time)
    }

    // Whether one of them holds each time from `least` to `greatest`, which is found in logarithmic time: no two of them hold such
    // times together, since they don't touch.
    pub fn holds_all(&self, least: i64, greatest: i64) -> bool
        ensures all { result ≡ true → HoldsAll self.now least greatest }
        ensures only { HoldsAll self.now least greatest → result ≡ true }
    {
        if greatest < least {
            return true;
        }
        let place = self.0.partition_point(|interval| interval.start <= least);
        if place == 0 {
            return false;
        }
        greatest < self.0[place - 1].end
    }

    // The start of the first.
    pub fn start(&self) -> Option<i64>
        ensures { result ≡ union_start self.now }
    {
        match self.0.first() {
            None => None,
            Some(interval) => interval.first(),
        }
    }

    // The first time that isn't before `from`, which is found in logarithmic time.
    pub fn first_from(&self, from: i64) -> Option<i64>
        ensures { result ≡ union_first_from from self.now }
    {
        let place = self.0.partition_point(|interval| interval.end <= from);
        if place == self.0.len() {
            return None;
        }
        self.0[place].first_from(from)
    }
}

fn join_all(alloc: Global, sorted: &[Interval]) -> Result<Vec<Interval>, AllocError>
    requires { Rise sorted.now }
    ensures apart { IfOk result (λ joined. AreApart joined.items) }
    ensures same { IfOk result (λ joined. HoldSame joined.items sorted.now) }
{
    let mut joined = Vec::new(alloc);
    for interval in sorted {
        join(&mut joined, *interval)?;
    }
    Ok(joined)
}

// Joins one more interval, which starts before none of them, to the last one or puts it behind.
fn join(joined: &mut Vec<Interval>, next: Interval) -> Result<(), AllocError>
    requires apart { AreApart joined.old.items }
    requires rising { AllByRecursion (λ i. i.start ≤ℤ next.start) joined.old.items }
    ensures apart { OnOk result (AreApart joined.new.items) }
    ensures rising { OnOk result (AllByRecursion (λ i. i.start ≤ℤ next.start) joined.new.items) }
    ensures times { OnOk result ((t : ℤ) → union_holds joined.new.items t ≡ union_holds joined.old.items t || holds_time next t) }
{
    if next.is_empty() {
        return Ok(());
    }
    let len = joined.len();
    if len > 0 {
        if let Some(longer) = longer(&joined[len - 1], &next) {
            joined[len - 1] = longer;
            return Ok(());
        }
    }
    joined.push(next)?;
    Ok(())
}

// Both intervals as one, where the other one starts before this one ends, or just then.
fn longer(interval: &Interval, next: &Interval) -> Option<Interval>
    ensures { result ≡ longer_of interval.now next.now }
{
    if interval.end < next.start {
        return None;
    }
    Some(Interval {
        start: interval.start,
        end: interval.end.max(next.end),
    })
}

// The times that some intervals and others hold: of each two that may overlap, what they share.
fn shared_of(
    alloc: Global,
    some: &[Interval],
    others: &[Interval],
) -> Result<Vec<Interval>, AllocError>
    requires some { AreApart some.now }
    requires others { AreApart others.now }
    ensures apart { IfOk result (λ shared. AreApart shared.items) }
    ensures shared { IfOk result (λ shared. AreShared some.now others.now shared.items) }
{
    let mut shared = Vec::new(alloc);
    let mut i = 0;
    let mut j = 0;
    while i < some.len() && j < others.len() {
        join(&mut shared, some[i].shared_with(&others[j]))?;
        if some[i].end <= others[j].end {
            i += 1;
        } else {
            j += 1;
        }
    }
    Ok(shared)
}

// The times that some intervals hold and others lack: what they share with the gaps of the others.
fn left_of(
    alloc: Global,
    some: &[Interval],
    others: &[Interval],
) -> Result<Vec<Interval>, AllocError>
    requires some { AreApart some.now }
    requires others { AreApart others.now }
    ensures apart { IfOk result (λ left. AreApart left.items) }
    ensures left { IfOk result (λ left. AreLeft some.now others.now left.items) }
{
    if some.is_empty() {
        return Ok(Vec::new(alloc));
    }
    let within = Interval {
        start: some[0].start,
        end: some[some.len() - 1].end,
    };
    let gaps = gaps_of(alloc, &within, others)?;
    shared_of(alloc, some, gaps.as_slice())
}

// The times of an interval that others lack: those before each of the others and behind the one before it, and those behind the last.
fn gaps_of(
    alloc: Global,
    within: &Interval,
    others: &[Interval],
) -> Result<Vec<Interval>, AllocError>
    requires { AreApart others.now }
    ensures apart { IfOk result (λ gaps. AreApart gaps.items) }
    ensures gaps { IfOk result (λ gaps. AreGaps within.now others.now gaps.items) }
{
    let mut gaps = Vec::new(alloc);
    let mut from = within.start;
    for other in others {
        let gap = Interval {
            start: from,
            end: other.start,
        };
        join(&mut gaps, gap)?;
        from = from.max(other.end);
    }
    let last = Interval {
        start: from,
        end: within.end,
    };
    join(&mut gaps, last)?;
    Ok(gaps)
}
