//! What the answer to a timeseries or a groupBy over rows is: the rows that a query selects, their groups, the groups that it
//! gives in their order, and the text of them. Definitions, what is asked of one row or one group at a time, and the laws of
//! what an answer depends on.
#![tactic(auto)]

mod answer_error;
mod laws;
mod result_row;
mod selecting;

pub use answer_error::AnswerError;
pub use laws::{answers_of_alike_rows, answers_rearranged, groups_of_once};
pub use result_row::ResultRow;
pub use selecting::{bucket_of, selects};
