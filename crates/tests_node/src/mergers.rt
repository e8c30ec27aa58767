ghost use Rattle.std.specs.Prelude.{◌≡◌, ◌<◌};

use crate::acts::{join, seal};
use crate::events::{FIRST, SECOND, THIRD, accept, blanks, copy_of, new_spec};
use crate::pairs::pair_of;
use crate::turns::{Once, wait_for};
use dr_node::{Books, Joined, MergerReport, Node, NodeLedger, OneSeat, Seat};
use dr_spec::IngestSpec;
use dr_timeline::{Purpose, RangeInfo};
use std::alloc::Global;
use std::marker::Brand;
use std::sync::Wait;
use std::sync::atomic::Ordering;
use std::sync::ledger::{Blank, Ledger};
use std::thread;
use std::thread::Threads;

type Two<A, B, C, D> = Joined<OneSeat<A, B>, OneSeat<C, D>>;

/// What the thread beside a merger does while the policy is held.
#[derive(Clone, Copy)]
enum Beside {
    /// It accepts an event.
    Accepts,
    /// It publishes the first range of the merger's job.
    Publishes,
}

/// What a merger told, whether the policy was held for all turns, how many ranges a last pin has sealed, and the versions of the first
/// and of the last of these.
#[derive(Drop)]
struct Seen {
    report: MergerReport,
    late: bool,
    sealed: usize,
    version: u64,
    last_version: u64,
}

fn sealed_in(ranges: &[RangeInfo]) -> usize {
    let mut count = 0usize;
    for range in ranges {
        if range.sealed {
            count = count.saturating_add(1);
        }
    }
    count
}

fn first_version(ranges: &[RangeInfo]) -> Option<u64> {
    let range = ranges.first()?;
    Some(range.version)
}

fn last_version(ranges: &[RangeInfo]) -> Option<u64> {
    let mut version = None;
    for range in ranges {
        if range.sealed {
            version = Some(range.version);
        }
    }
    version
}

/// Seals a range with one event, and another one.
fn two_ranges<B: Books, R: Wait>(
    rt: &R,
    alloc: Global,
    node: &Node<B>,
    spec: &IngestSpec,
    seat: &mut Seat<B>,
) -> Option<()>
    requires { spec.now ≡ B.schema }
{
    accept(rt, alloc, node, spec, seat, FIRST)?;
    seal(rt, node)?;
    accept(rt, alloc, node, spec, seat, SECOND)?;
    seal(rt, node)
}

/// Once the policy is held: accepts an event, or publishes a range, and lets the policy go.
fn beside_merger<B: Books, R: Wait>(
    rt: &R,
    alloc: Global,
    node: &Node<B>,
    spec: &IngestSpec,
    seat: &mut Seat<B>,
    policy: &Once,
    beside: Beside,
) -> Option<u64>
    requires { spec.now ≡ B.schema }
{
    if !wait_for(&policy.entered) {
        return None;
    }
    let answer = match beside {
        Beside::Accepts => accept(rt, alloc, node, spec, seat, THIRD),
        Beside::Publishes => join(rt, alloc, node, 1, Purpose::Publish),
    };
    policy.answered.store(true, Ordering::SeqCst);
    answer
}

/// A merger runs by the first seat, and another thread uses the node by the second meanwhile.
fn at_once<B: Books, R: Threads + Wait + Sync>(
    rt: &R,
    alloc: Global,
    node: &Node<B>,
    spec: &IngestSpec,
    policy: &Once,
    beside: Beside,
    first: Seat<B>,
    second: Seat<B>,
) -> Option<(MergerReport, Seat<B>)>
    requires { spec.now ≡ B.schema }
{
    let (report, second) = thread::join(
        rt,
        move || -> Option<MergerReport> {
            let mut seat = first;
            node.merger(rt, &mut seat, policy, &policy.stop).ok()
        },
        move || -> Option<Seat<B>>
            requires { spec.now ≡ B.schema }
        {
            let mut seat = second;
            beside_merger(rt, alloc, node, spec, &mut seat, policy, beside)?;
            Some(seat)
        },
    );
    report.zip(second)
}

/// What a merger tells that merges or publishes one of two ranges, or both, while another thread uses the node.
fn merged<
    A: NodeLedger + Send + Sync,
    B: Ledger + Send + Sync,
    C: NodeLedger + Send + Sync,
    D: Ledger + Send + Sync,
    R: Threads + Wait + Sync,
>(
    rt: &R,
    alloc: Global,
    spec: IngestSpec,
    blanks: ((Blank, Blank), (Blank, Blank)),
    while_asked: bool,
    named: (usize, usize, Purpose),
    beside: Beside,
) -> Option<Seen>
    requires schema { spec ≡ A.schema }
    requires first_mine { (blanks.0.0.name ≡ A.name) × (blanks.0.0.parts ≡ A.parts) × (0 < A.parts) }
    requires first_floor { (blanks.0.1.name ≡ B.name) × (blanks.0.1.parts ≡ B.parts) × (0 < B.parts) }
    requires second_mine { (blanks.1.0.name ≡ C.name) × (blanks.1.0.parts ≡ C.parts) × (0 < C.parts) }
    requires second_floor { (blanks.1.1.name ≡ D.name) × (blanks.1.1.parts ≡ D.parts) × (0 < D.parts) }
{
    let copy = copy_of(&spec)?;
    let (node, seats) = Node::<Two<A, B, C, D>>::new(alloc, spec, blanks).ok()?;
    merged_by(rt, alloc, &node, &copy, seats, while_asked, named, beside)
}

/// The same on a node that was made.
fn merged_by<B: Books, R: Threads + Wait + Sync>(
    rt: &R,
    alloc: Global,
    node: &Node<B>,
    spec: &IngestSpec,
    seats: Vec<Seat<B>>,
    while_asked: bool,
    named: (usize, usize, Purpose),
    beside: Beside,
) -> Option<Seen>
    requires { spec.now ≡ B.schema }
{
    let (first, mut second) = pair_of(seats)?;
    two_ranges(rt, alloc, node, spec, &mut second)?;
    let policy = Once::new(while_asked, named);
    let (report, mut seat) = at_once(rt, alloc, node, spec, &policy, beside, first, second)?;
    let snapshot = node.pin(rt, &mut seat).ok()?;
    Some(Seen {
        report,
        late: policy.late.load(Ordering::SeqCst),
        sealed: sealed_in(snapshot.ranges()),
        version: first_version(snapshot.ranges())?,
        last_version: last_version(snapshot.ranges())?,
    })
}

fn told<R: Threads + Wait + Sync>(
    rt: &R,
    alloc: Global,
    while_asked: bool,
    named: (usize, usize, Purpose),
    beside: Beside,
) -> Option<Seen> {
    let spec = new_spec(alloc)?;
    merged::<Brand, Brand, Brand, Brand, R>(rt, alloc, spec, blanks(), while_asked, named, beside)
}

#[test]
fn an_event_is_accepted_while_the_policy_is_asked(rt: HostRuntime) {
    let Some(told) = told(
        &rt,
        rt.alloc(),
        true,
        (0, 2, Purpose::Merge),
        Beside::Accepts,
    ) else {
        panic!(rt; "no answer");
    };
    assert!(rt; !told.late);
    assert!(rt; told.report.commits == 1 && told.report.stale == 0);
    assert!(rt; told.sealed == 1 && told.version == 0);
}

#[test]
fn an_event_is_accepted_while_a_job_is_planned(rt: HostRuntime) {
    let Some(told) = told(
        &rt,
        rt.alloc(),
        false,
        (0, 2, Purpose::Merge),
        Beside::Accepts,
    ) else {
        panic!(rt; "no answer");
    };
    assert!(rt; !told.late);
    assert!(rt; told.report.commits == 1 && told.report.stale == 0);
    assert!(rt; told.sealed == 1 && told.version == 0);
}

#[test]
fn just_what_a_policy_publishes_has_a_version(rt: HostRuntime) {
    let Some(told) = told(
        &rt,
        rt.alloc(),
        true,
        (0, 1, Purpose::Publish),
        Beside::Accepts,
    ) else {
        panic!(rt; "no answer");
    };
    assert!(rt; told.report.commits == 1 && told.report.stale == 0);
    assert!(rt; told.sealed == 2 && told.version == 1 && told.last_version == 0);
}

#[test]
fn just_the_place_that_a_policy_publishes_has_a_version(rt: HostRuntime) {
    let Some(told) = told(
        &rt,
        rt.alloc(),
        true,
        (1, 2, Purpose::Publish),
        Beside::Accepts,
    ) else {
        panic!(rt; "no answer");
    };
    assert!(rt; told.report.commits == 1 && told.report.stale == 0);
    assert!(rt; told.sealed == 2 && told.version == 0 && told.last_version == 1);
}

#[test]
fn a_job_is_stale_once_another_thread_published_its_range(rt: HostRuntime) {
    let Some(told) = told(
        &rt,
        rt.alloc(),
        false,
        (0, 2, Purpose::Merge),
        Beside::Publishes,
    ) else {
        panic!(rt; "no answer");
    };
    assert!(rt; !told.late);
    assert!(rt; told.report.commits == 0 && told.report.stale == 1);
    assert!(rt; told.sealed == 2);
}
