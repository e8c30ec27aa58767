/// A range of a chunk's list of events in a snapshot, which is one segment (Apache Druid documentation, segments).
#[derive(Clone, Copy, Debug, PartialEq, Eq)]
pub struct RangeInfo {
    /// The start of the chunk, in milliseconds since the epoch.
    pub chunk: i64,
    /// The place of its first event in the list of the chunk.
    pub from: usize,
    /// The place behind its last event.
    pub to: usize,
    /// Its version; 0 where it isn't published.
    pub version: u64,
    /// How many rows it has.
    pub rows: usize,
    /// Whether it takes no more events.
    pub sealed: bool,
}
