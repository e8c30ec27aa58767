/// What became of an input that is no event of the data source (Apache Druid documentation, ingestion: row statistics).
#[derive(Clone, Copy, Debug, PartialEq, Eq)]
pub enum Outcome {
    /// It could not be read as an event.
    Unparseable,
    /// It was read, and not kept.
    ThrownAway,
}
