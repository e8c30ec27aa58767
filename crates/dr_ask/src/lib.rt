//! Native queries of the types timeseries, groupBy and scan, whole: read from JSON for one schema, field by field.
//! What a query asks is a plain record of definitions; how it is answered stands elsewhere.
#![tactic(auto)]

mod aggregation;
mod aggregation_reading;
mod aggregations;
mod column;
mod column_reading;
mod column_source;
mod context;
mod dimension;
mod dimension_reading;
mod dimensions;
mod fields;
mod group_by;
mod outputs;
mod query;
mod query_error;
mod query_type;
mod result_format;
mod scan;
mod scan_column;
mod scan_columns;
mod scan_reading;
mod shape;
mod shape_reading;
mod sources;
mod time_order;
mod timeseries;

pub use aggregation::Aggregation;
pub use aggregations::Aggregations;
pub use column::Column;
pub use column_source::ColumnSource;
pub use dimension::Dimension;
pub use dimensions::Dimensions;
pub use group_by::GroupBy;
pub use query::Query;
pub use query_error::QueryError;
pub use result_format::ResultFormat;
pub use scan::Scan;
pub use scan_column::ScanColumn;
pub use scan_columns::ScanColumns;
pub use shape::Shape;
pub use time_order::TimeOrder;
pub use timeseries::Timeseries;
