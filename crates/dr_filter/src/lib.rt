//! Filters of rows, as a query or a spec asks for them: read from JSON for one schema, and asked of a row.
//! A filter looks at the time and the dimension values of a row; what is asked of one dimension is a test of `dr_predicate`.
#![tactic(auto)]

mod asking;
mod fields;
mod filter;
mod filter_error;
mod filter_tree;
mod members;
mod parts;
mod reading;
mod test_reading;
mod times;
mod values;

pub use filter::Filter;
pub use filter_error::FilterError;
pub use filter_tree::FilterTree;
