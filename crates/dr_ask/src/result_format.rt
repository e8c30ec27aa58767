/// How a scan writes a row (Apache Druid documentation, scan queries).
#[derive(Clone, Copy, Debug, PartialEq, Eq)]
pub enum ResultFormat {
    /// As an object of its columns.
    List,
    /// As a list of their values, in the order of the query.
    CompactedList,
}
