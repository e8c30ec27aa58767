//! Conditions on the groups of a groupBy, as `having` asks for them, read from JSON over the outputs of a query as they are spelled.
//! Each is made into what is asked of a group, all that is asked of one aggregation, or of one dimension, at once.
#![tactic(auto)]

mod asked_having;
mod asked_output;
mod asking;
mod choosing;
mod comparison;
mod conjunction;
mod dimension_value;
mod group_lot;
mod group_outputs;
mod group_value;
mod having;
mod having_error;
mod leaf_reading;
mod named_outputs;
mod number_conditions;
mod number_look_up;
mod number_steps;
mod ordered_numbers;
mod ordered_texts;
mod output_conditions;
mod reading;
mod text_conditions;
mod text_look_up;

pub use asked_having::AskedHaving;
pub use comparison::Comparison;
pub use dimension_value::DimensionValue;
pub use group_outputs::GroupOutputs;
pub use group_value::GroupValue;
pub use having::Having;
pub use having_error::HavingError;
