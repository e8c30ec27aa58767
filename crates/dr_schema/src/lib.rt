//! The schema of a data source: its columns, how events are read into them, its granularities and its limits. A schema is
//! well formed by its type, whoever made it, and is shared by all that need it.
#![tactic(auto)]

mod limits;
mod metric;
mod metrics;
mod names;
mod schema;
mod schema_fields;
mod time_format;

pub use limits::Limits;
pub use metric::Metric;
pub use metrics::Metrics;
pub use schema::Schema;
pub use schema_fields::SchemaFields;
pub use time_format::TimeFormat;
