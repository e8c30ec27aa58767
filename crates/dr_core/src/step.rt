use dr_ask::Query;
use dr_base::Event;
use dr_merge::Purpose;

/// A step of a run of the core. Jobs and pins are named by their numbers, from 0, in the order in which they were given.
#[derive(Drop)]
pub enum Step {
    /// Accepts an event.
    Accept(Event),
    /// Seals the open range of the chunk that starts at this time, in milliseconds since the epoch.
    Seal(i64),
    /// Plans a job over the sealed ranges of a chunk at the places from the first to before the second.
    Plan(i64, usize, usize, Purpose),
    /// Works on the job of that number and commits it.
    Commit(usize),
    /// Pins a snapshot.
    Pin,
    /// Asks the snapshot of that number a query.
    Ask(usize, Query),
    /// Asks the snapshot of that number for the plain fold over its events.
    Audit(usize, Query),
}
