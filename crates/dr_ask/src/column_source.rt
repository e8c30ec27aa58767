/// What a column of a scan reads of a row (Apache Druid documentation, schema model).
#[derive(Clone, Copy, Debug, PartialEq, Eq)]
pub enum ColumnSource {
    /// `__time`: the time of the row.
    Time,
    /// The dimension at this place of the schema's list, from 0.
    Dimension(usize),
    /// The metric at this place of the schema's list, from 0.
    Metric(usize),
    /// No column of the schema.
    Unknown,
}
