//! Dictionaries of the values of a dimension: distinct texts, each with a number. A growing dictionary numbers them in the
//! order in which they come, a sorted one in the order of their bytes; a set of texts only tells which are new.
#![tactic(auto)]

mod adding;
mod dict_error;
mod growing_dict;
mod sorted_dict;
mod text_places;
mod text_set;

pub use dict_error::DictError;
pub use growing_dict::GrowingDict;
pub use sorted_dict::{SortedDict, renumbering, sorted_is_unique};
pub use text_places::TextPlaces;
pub use text_set::TextSet;
