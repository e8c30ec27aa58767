use crate::result_format::ResultFormat;
use crate::scan_columns::ScanColumns;
use crate::time_order::TimeOrder;

/// What a scan asks beside what every query asks (Apache Druid documentation, scan queries): which columns of the rows it
/// gives and how they are written, whether the rows stand by their times, how many rows one entry has at most where they don't,
/// how many rows are left out at first, and how many it gives at most.
#[derive(Debug, Drop)]
pub struct Scan {
    pub columns: ScanColumns,
    pub order: Option<TimeOrder>,
    pub result_format: ResultFormat,
    /// 1 at least.
    pub batch_size: u64,
    pub offset: u64,
    pub limit: Option<u64>,
}
