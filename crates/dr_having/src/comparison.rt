/// How the value of an aggregation compares with a number.
#[derive(Clone, Copy, Debug, PartialEq, Eq)]
pub enum Comparison {
    /// `equalTo`
    Equal,
    /// `greaterThan`
    Greater,
    /// `lessThan`
    Less,
}
