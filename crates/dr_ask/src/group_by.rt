use crate::dimensions::Dimensions;
use dr_having::Having;
use dr_order::LimitSpec;

/// What a groupBy asks beside what every query asks (Apache Druid documentation, groupBy queries): by which dimensions it
/// groups, which groups it keeps, and in which order and how many of them it gives.
#[derive(Debug, Drop)]
pub struct GroupBy {
    pub dimensions: Dimensions,
    pub having: Option<Having>,
    pub limit_spec: LimitSpec,
}
