ghost use Rattle.dr_ask.specs.Asked.{asked};
ghost use Rattle.dr_ask.specs.MadeFor.{MadeFor};

use crate::failure::Failure;
use crate::progress::progress_of;
use crate::waiting::wait;
use crate::watch::Watch;
use dr_ask::Query;
use dr_books::Books;
use dr_node::{Node, Seat, Stop};
use std::sync::Wait;
use std::time::{Clock, Instant};

/// The shortest and the longest wait between two queries, in microseconds. While a snapshot is asked, the next event of each chunk
/// copies that chunk's open index, so the shortest is what a person would not notice, and no less.
const SHORTEST_WAIT: u64 = 25_000;

const LONGEST_WAIT: u64 = 100_000;

/// Pins and answers the query until it is stopped, and tells each time how far the load is. Between two queries it waits nine
/// tenths of what the last one took, and a moment at least. A refusal ends it.
pub(crate) fn ask<B: Books, T: Wait + Clock, W: Watch>(
    rt: &T,
    node: &Node<B>,
    seat: &mut Seat<B>,
    query: &Query,
    stop: &Stop,
    watch: &W,
) -> Result<(), Failure>
    requires { MadeFor B.schema (asked query.now) }
{
    let mut answers = 0u64;
    for _ in rt.forever() {
        if stop.is_stopped() {
            return Ok(());
        }
        let begun = Instant::now(rt);
        let snapshot = node.pin(rt, seat)?;
        snapshot.answer_one(query)?;
        answers = answers.saturating_add(1);
        watch.told(progress_of(snapshot.event_count() as u64, snapshot.ranges(), answers));
        drop(snapshot);
        let took = match (begun, Instant::now(rt)) {
            (Ok(begun), Ok(ended)) => ended.saturating_duration_since(begun).as_micros(),
            _ => 0,
        };
        let rest = ((took / 10 * 9).min(u128::from(LONGEST_WAIT)) as u64).max(SHORTEST_WAIT);
        wait(rt, stop, rest);
    }
    unreachable!()
}
