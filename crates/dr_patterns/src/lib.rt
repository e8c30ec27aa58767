//! Patterns of `like` of which a text is to fit one, asked all together: those of the usual forms (a word, a start, an end, a part)
//! are found by hashing or by a search, and only the others are tried one by one. And patterns of which it is to fit each, without
//! those that ask for no more than another one. And a pattern with one `%` for those that follow each other.
#![tactic(auto)]

mod by_kind;
mod divided;
mod edges;
mod gathered;
mod implying;
mod kind;
mod parts;
mod patterns;
mod runs;
mod side;
mod words;

pub use divided::DividedPatterns;
pub use implying::without_implied;
pub use patterns::Patterns;
pub use runs::runs_joined;
