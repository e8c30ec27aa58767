ghost use Rattle.std.specs.Prelude.{◌≡◌, [], IfOk, map};
ghost use Rattle.dr_base.specs.declared.row.Row.{Row};
ghost use Rattle.dr_scan.specs.ScanText.{row_data};
ghost use Rattle.dr_scan.specs.Written.{column_of, with_sources, written_row};

use dr_ask::{ColumnSource, ResultFormat, Scan, ScanColumn, ScanColumns};
use dr_base::Text;
use std::alloc::{AllocError, Global};
use std::collections::BTreeMap;

/// The columns of a scan in the order in which those of a row are written: in ascending byte order of their names where a row is
/// an object, in the order of the query where it is a list. It takes time by n log n in the columns.
pub(crate) fn columns_written(alloc: Global, scan: &Scan) -> Result<ScanColumns, AllocError>
    ensures { IfOk result (λ cs. (r : Row) → written_row scan.now.result_format cs r ≡ row_data scan.now.result_format scan.now.columns r) }
{
    match scan.result_format {
        ResultFormat::List => by_name(alloc, scan.columns.as_slice()),
        ResultFormat::CompactedList => copies(alloc, scan.columns.as_slice()),
    }
}

/// The columns by their names.
fn by_name(alloc: Global, columns: &[ScanColumn]) -> Result<ScanColumns, AllocError>
    ensures { IfOk result (λ cs. cs ≡ map column_of (with_sources [] columns.now)) }
{
    let mut sources = BTreeMap::new(alloc);
    for column in columns {
        sources.insert(column.name.copy()?, column.source)?;
    }
    listed(alloc, sources)
}

fn listed(alloc: Global, sources: BTreeMap<Text, ColumnSource>) -> Result<ScanColumns, AllocError>
    ensures { IfOk result (λ cs. cs ≡ map column_of sources.entries) }
{
    let mut columns = ScanColumns::new(alloc);
    for (name, source) in sources {
        columns.push(ScanColumn { name, source })?;
    }
    Ok(columns)
}

fn copies(alloc: Global, columns: &[ScanColumn]) -> Result<ScanColumns, AllocError>
    ensures { IfOk result (λ cs. cs ≡ columns.now) }
{
    let mut copies = ScanColumns::new(alloc);
    for column in columns {
        copies.push(ScanColumn {
            name: column.name.copy()?,
            source: column.source,
        })?;
    }
    Ok(copies)
}
