ghost use Rattle.std.specs.Prelude.{◌≡◌, IfOk};
ghost use Rattle.dr_spec.specs.Refusal.{Gives};
ghost use Rattle.dr_spec.specs.SpecOf.{spec_of};

use crate::reading::read_schema;
use crate::spec_error::SpecError;
use dr_schema::Schema;
use std::alloc::{AllocError, Global};
use std::marker::Model;

/// An ingestion spec that was read (Apache Druid documentation, ingestion spec). A contract sees its schema, which is well
/// formed: the names of the columns are distinct, there are 1 to 64 dimensions and at most 64 metrics, each metric but a
/// count reads a field, the query granularity nests in the segment granularity, and each limit is in its range.
#[derive(Debug, Drop)]
pub struct IngestSpec {
    schema: Schema,
}

impl Model for IngestSpec {
    ghost use Rattle.dr_schema.specs.declared.schema.Schema.{Schema};

    ghost Value = { Schema };

    ghost view = { λ s. s.schema };
}

impl IngestSpec {
    ghost use Rattle.dr_schema.specs.WellFormed.{IsWellFormed};

    /// The spec that the bytes spell, as JSON in UTF-8. Where the text has an object `spec`, that is taken in its place. A
    /// field that is null counts as absent. In `dataSchema`, in its sections and in a metric a key that is not listed is
    /// taken only with null, false, `[]` or `{}`; beside `dataSchema`, in `tuningConfig` and in a dimension it is ignored.
    /// It takes time by the bytes.
    ///
    /// Refusals, the first that is met in the order of `dataSource`, `timestampSpec`, `dimensionsSpec`, `metricsSpec`,
    /// `granularitySpec`, nesting, `transformSpec`, the names of the columns, their number, unlisted keys and `tuningConfig`:
    /// 0 `NoMemory`, 1 `NotJson`, 2 `Missing`, 3 `WrongKind`, 20 `UnsupportedDimension`, 21 `UnsupportedMetric`, 22
    /// `UnsupportedGranularity`, 23 `NotNested`, 24 `DuplicateName`, 25 `NoDimensions`, 26 `Unsupported`, 27 `TooManyColumns`.
    pub fn parse(alloc: Global, bytes: &[u8]) -> Result<IngestSpec, SpecError>
        ensures { Gives (λ schema. schema) result (spec_of bytes.now) }
    {
        let fields = read_schema(alloc, bytes)?;
        Ok(IngestSpec {
            schema: Schema::new(alloc, fields)?,
        })
    }

    /// The same spec, whose schema is shared. It takes no memory, and constant time; the only error is that there are more
    /// shares than can be counted.
    pub fn copy(&self) -> Result<IngestSpec, AllocError>
        ensures { IfOk result (λ spec. spec ≡ self.now) }
    {
        Ok(IngestSpec {
            schema: self.schema.copy()?,
        })
    }

    /// The schema of the data source. A caller learns that it is well formed.
    pub fn schema(&self) -> &Schema
        ensures value { result.now ≡ self.now }
        ensures well_formed { IsWellFormed self.now }
    {
        // The contract of this call says that the schema is well formed.
        let _ = self.schema.fields();
        &self.schema
    }
}
