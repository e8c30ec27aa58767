use crate::dimension_test::DimensionTest;

/// A test of a dimension, and whether it is to hold.
#[derive(Drop)]
pub struct ToldDimension {
    pub test: DimensionTest,
    pub holds: bool,
}
