ghost use Rattle.std.specs.Prelude.{◌≡◌, ◌++◌, ◌∷◌, [], OnOk, OnErr};

use crate::scan_column::ScanColumn;
use std::alloc::{AllocError, Global};
use std::marker::Model;

/// The columns of a scan in order. A contract sees the list of them.
#[derive(Debug, Drop)]
pub struct ScanColumns(Vec<ScanColumn>);

impl Model for ScanColumns {
    ghost use Rattle.std.specs.Prelude.{List};
    ghost use Rattle.dr_ask.specs.declared.scan_column.ScanColumn.{ScanColumn};

    ghost Value = { List ScanColumn };

    ghost view = { λ l. l.0.items };
}

impl ScanColumns {
    /// None. It takes no memory.
    pub fn new(alloc: Global) -> ScanColumns
        ensures { result ≡ [] }
    {
        ScanColumns(Vec::new(alloc))
    }

    /// The columns as a slice.
    pub fn as_slice(&self) -> &[ScanColumn]
        ensures { result.now ≡ self.now }
    {
        self.0.as_slice()
    }

    /// Adds one behind the others. The only error is that memory ran out.
    pub fn push(&mut self, column: ScanColumn) -> Result<(), AllocError>
        ensures ok { OnOk result (self.new ≡ self.old ++ column ∷ []) }
        ensures err { OnErr result (self.new ≡ self.old) }
    {
        self.0.push(column)?;
        Ok(())
    }
}
