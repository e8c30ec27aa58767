use crate::value_test::ValueTest;

/// A test of a value, and whether it is to hold.
#[derive(Drop)]
pub struct ToldTest {
    pub test: ValueTest,
    pub holds: bool,
}
