//! Whether a text fits a pattern of `like`, where a piece of the pattern is looked for at many places of the text at once, a bit for
//! each place, 64 to a word. It takes memory, and for a long text with a long pattern far less time than going from place to place.
#![tactic(auto)]

mod by_letters;
mod by_places;
mod choosing;
mod digits;
mod letter_places;
mod letters;
mod like_pattern;
mod own_texts;
mod pattern_shape;
mod place_set;
mod search;
mod standing;
mod trying;
mod words;

pub use by_places::fits_by_places;
pub use choosing::fits_soonest;
pub use letter_places::LetterPlaces;
pub use like_pattern::LikePattern;
pub use own_texts::OwnTexts;
pub use pattern_shape::PatternShape;
