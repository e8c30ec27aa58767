/// How the time of an event is written (Apache Druid documentation, ingestion spec, `timestampSpec`).
#[derive(Clone, Copy, Debug, PartialEq, Eq)]
pub enum TimeFormat {
    /// A text of ISO 8601.
    Iso,
    /// Milliseconds since the epoch.
    Millis,
    /// Seconds since the epoch.
    Posix,
    /// Milliseconds, where it is a whole number or a text of an optional `-` and 1 to 19 digits; any other text is one of
    /// ISO 8601.
    Auto,
}
