use crate::value_tests::ValueTests;

/// What is asked of one dimension: its place in the schema's list, and the tests of its value.
#[derive(Drop)]
pub struct AskedDimension {
    pub place: Option<usize>,
    pub tests: ValueTests,
}
