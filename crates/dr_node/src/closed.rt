use dr_timeline::Snapshot;

/// What closing a node shows.
#[derive(Drop)]
pub struct Closed {
    /// The last snapshot, whose stream has all accepted events.
    pub snapshot: Snapshot,
    /// How many of them each seat accepted, by the numbers of the seats.
    pub mine: Vec<u64>,
}
