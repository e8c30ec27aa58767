//! The order and the limits of the groups of a groupBy, as `limitSpec` asks for them, read from JSON over the outputs of a
//! query. It also says which of two groups comes first.
#![tactic(auto)]

mod column_reading;
mod fields;
mod limit_spec;
mod order_column;
mod order_columns;
mod order_error;
mod output;
mod reading;

pub use limit_spec::LimitSpec;
pub use order_column::OrderColumn;
pub use order_columns::OrderColumns;
pub use order_error::OrderError;
pub use output::Output;
