use dr_base::{Numbers, Texts};

/// A group of an answer: the start of its bucket in milliseconds since the epoch, its dimension values (none in a
/// timeseries), and the value of each aggregation in the order of the query.
#[derive(Debug, Drop)]
pub struct ResultRow {
    pub time: i64,
    pub dims: Texts,
    pub values: Numbers,
}
