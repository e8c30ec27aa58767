use crate::group_by::GroupBy;
use crate::scan::Scan;
use crate::timeseries::Timeseries;

/// What a query asks by its type.
#[derive(Debug, Drop)]
pub enum Shape {
    Timeseries(Timeseries),
    GroupBy(GroupBy),
    Scan(Scan),
}
