use crate::limits::Limits;
use crate::metrics::Metrics;
use crate::time_format::TimeFormat;
use dr_base::{Text, Texts};
use dr_gran::Gran;

/// What a schema is made of: the columns of a data source, how events are read into them, and its limits (Apache Druid
/// documentation, ingestion spec). The columns of a row are `__time`, the dimensions and the metrics.
#[derive(Debug)]
pub struct SchemaFields {
    /// The name of the data source.
    pub data_source: Text,
    /// The field of an event that holds its time.
    pub time_column: Text,
    /// How that time is written.
    pub time_format: TimeFormat,
    /// The names of the dimensions, each also the field of an event that it reads.
    pub dimensions: Texts,
    /// The metric columns.
    pub metrics: Metrics,
    /// How long a chunk is.
    pub segment_granularity: Gran,
    /// What the time of an event is truncated to.
    pub query_granularity: Gran,
    /// Whether events of equal truncated time and equal dimensions become one row.
    pub rollup: bool,
    /// What the data source is bounded by.
    pub limits: Limits,
}

// Written out, since a derived drop is repeated, field by field, in the proof of each function that drops a schema.
impl Drop for SchemaFields {
    fn drop(self) {
        let SchemaFields {
            data_source: _,
            time_column: _,
            time_format: _,
            dimensions: _,
            metrics: _,
            segment_granularity: _,
            query_granularity: _,
            rollup: _,
            limits: _,
        } = self;
    }
}
