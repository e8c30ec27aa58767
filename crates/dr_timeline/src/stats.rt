/// What became of the inputs of a timeline (Apache Druid documentation, ingestion: row statistics).
#[derive(Clone, Copy, Debug, PartialEq, Eq)]
pub struct Stats {
    /// How many events were accepted.
    pub processed: u64,
    /// How many inputs could not be read as an event, up to 2^64 - 1.
    pub unparseable: u64,
    /// How many inputs were read, and not kept, up to 2^64 - 1.
    pub thrown_away: u64,
}
