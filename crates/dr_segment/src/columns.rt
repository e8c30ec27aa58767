use crate::dimension::Dimension;

/// The rows of a range of a chunk, column by column, as an image has them.
#[derive(Drop)]
pub struct Columns<'a> {
    /// Whether events of equal truncated time and equal dimensions became one row.
    pub rollup: bool,
    /// The start of the chunk, in milliseconds since the epoch.
    pub chunk: i64,
    /// The number of the first event of the range, among those of the chunk.
    pub from: u64,
    /// The number behind the last one.
    pub to: u64,
    /// The time of each row, in milliseconds since the epoch.
    pub times: Vec<i64>,
    /// The values of each metric, in the order of the schema.
    pub metrics: Vec<Vec<i64>>,
    /// The dimensions, in the order of the schema.
    pub dims: Vec<Dimension<'a>>,
}
