use crate::dimension_value::DimensionValue;
use crate::group_value::GroupValue;

/// A condition on the groups of a groupBy as it is spelled (Apache Druid documentation, groupBy queries: having), over the outputs
/// of one query. Contracts see it as the condition that it stands for, `condition_in`.
#[derive(Debug, Drop)]
pub enum Having {
    /// `equalTo`, `greaterThan`, `lessThan`: the value of an aggregation compares so with a number.
    Aggregation(GroupValue),
    /// `dimSelector`: the value of a dimension is a text.
    Dimension(DimensionValue),
    /// `and`: all of these hold, as they do where there are none.
    And(Vec<Having>),
    /// `or`: one of these holds, as none does where there are none.
    Or(Vec<Having>),
    /// `not`: this doesn't hold.
    Not(Box<Having>),
}
