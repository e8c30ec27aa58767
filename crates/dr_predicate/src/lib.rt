//! Tests of the value of a dimension: that it is a text or one of some, that it lies in a range or in one of some, that it fits a
//! pattern. Tests of which each is to hold, or not to, are joined dimension by dimension.
#![tactic(auto)]

mod apart;
mod asked_dimension;
mod asked_texts;
mod bounds;
mod dimension_test;
mod dimension_tests;
mod joining;
mod limits;
mod ranges;
mod telling;
mod told_dimension;
mod told_test;
mod value_test;
mod value_tests;

pub use bounds::Bounds;
pub use dimension_test::{DimensionTest, value_at};
pub use dimension_tests::DimensionTests;
pub use ranges::Ranges;
pub use told_dimension::ToldDimension;
pub use value_test::ValueTest;
