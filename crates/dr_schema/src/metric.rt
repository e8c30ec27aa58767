ghost use Rattle.std.specs.Prelude.{◌≡◌, IfOk};

use dr_agg::Kind;
use dr_base::Text;
use std::alloc::AllocError;

/// A metric column (Apache Druid documentation, ingestion spec, `metricsSpec`).
#[derive(Debug, Drop)]
pub struct Metric {
    /// The name of the column.
    pub name: Text,
    /// How the values of the column are combined.
    pub kind: Kind,
    /// The field of an event that is read; a count reads none.
    pub field: Option<Text>,
}

impl Metric {
    /// An equal column in memory of its own.
    pub fn copy(&self) -> Result<Metric, AllocError>
        ensures { IfOk result (λ metric. metric ≡ self.now) }
    {
        Ok(Metric {
            name: self.name.copy()?,
            kind: self.kind,
            field: copy_field(&self.field)?,
        })
    }
}

fn copy_field(field: &Option<Text>) -> Result<Option<Text>, AllocError>
    ensures { IfOk result (λ copy. copy ≡ field.now) }
{
    match field {
        Some(name) => Ok(Some(name.copy()?)),
        None => Ok(None),
    }
}
