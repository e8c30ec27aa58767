use crate::column_source::ColumnSource;
use dr_base::Text;

/// A column of a scan: the name that was asked for, and what it reads.
#[derive(Debug, Drop)]
pub struct ScanColumn {
    pub name: Text,
    pub source: ColumnSource,
}
