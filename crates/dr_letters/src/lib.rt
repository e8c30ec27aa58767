//! Which of many texts fit a pattern of `like`, told of all of them at once: of each place of a text it is kept, bit by bit, which
//! texts have which character there, and the pattern is gone through once for all texts, 64 to a word.
#![tactic(auto)]

mod asked_letter;
mod asking;
mod choosing;
mod common_code;
mod counting;
mod digit_sets;
mod fitting;
mod letter_rows;
mod piece;
mod pieces;
mod place_letters;
mod ranks;
mod rare_codes;
mod reading;
mod rest;
mod runs;
mod sought_piece;
mod text_letter;

pub use letter_rows::LetterRows;
