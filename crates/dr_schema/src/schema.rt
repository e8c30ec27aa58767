ghost use Rattle.std.specs.Prelude.{◌≡◌, false, true, IfOk, IfErr};
ghost use Rattle.dr_gran.specs.Step.{is_all};
ghost use Rattle.dr_schema.specs.WellFormed.{IsWellFormed, is_chunk_length};

use crate::limits::Limits;
use crate::metrics::Metrics;
use crate::schema_fields::SchemaFields;
use crate::time_format::TimeFormat;
use dr_base::{Text, Texts};
use dr_gran::Gran;
use std::alloc::{AllocError, AllocFailed, Global};
use std::marker::Model;
use std::sync::Arc;

/// The schema of a data source (Apache Druid documentation, ingestion spec). A contract sees its fields, which are well
/// formed: the names of the columns are distinct, there are 1 to 64 dimensions and at most 64 metrics, each metric but a
/// count reads a field, the query granularity nests in the segment granularity, and each limit is in its range.
///
/// A schema never changes, so that all who need it share one: a copy is one more share, and the last one frees the memory.
/// Each reader takes constant time.
#[derive(Debug, Drop)]
pub struct Schema(Arc<SchemaFields>);

impl Model for Schema {
    ghost use Rattle.std.specs.Arc.{arc_value};
    ghost use Rattle.dr_schema.specs.declared.schema_fields.SchemaFields.{SchemaFields};

    ghost Value = { SchemaFields };

    ghost use Rattle.dr_schema.specs.WellFormed.{IsWellFormed};

    ghost view = { λ s. arc_value s.0 };

    ghost invariant = { λ s. IsWellFormed (arc_value s.0) };
}

impl Schema {
    /// A schema of these fields. The only error is that memory ran out, and gives the fields back. It takes memory for the
    /// fields themselves, and none by their number.
    pub fn new(alloc: Global, fields: SchemaFields) -> Result<Schema, AllocFailed<SchemaFields>>
        requires { IsWellFormed fields }
        ensures ok { IfOk result (λ schema. schema ≡ fields) }
        ensures err { IfErr result (λ failed. failed.value ≡ fields) }
    {
        Ok(Schema(Arc::new(alloc, fields)?))
    }

    /// The same schema, shared. It takes no memory, and constant time; the only error is that there are more shares than
    /// can be counted, 2^63.
    pub fn copy(&self) -> Result<Schema, AllocError>
        ensures { IfOk result (λ schema. schema ≡ self.now) }
    {
        Ok(Schema(Arc::try_clone(&self.0)?))
    }

    /// All fields of the schema. A caller learns that they are well formed.
    pub fn fields(&self) -> &SchemaFields
        ensures value { result.now ≡ self.now }
        ensures well_formed { IsWellFormed self.now }
    {
        &self.0
    }

    /// The name of the data source.
    pub fn data_source(&self) -> &Text
        ensures { result.now ≡ self.now.data_source }
    {
        &self.0.data_source
    }

    /// The field of an event that holds its time.
    pub fn time_column(&self) -> &Text
        ensures { result.now ≡ self.now.time_column }
    {
        &self.0.time_column
    }

    /// How that time is written.
    pub fn time_format(&self) -> TimeFormat
        ensures { result ≡ self.now.time_format }
    {
        self.0.time_format
    }

    /// The names of the dimensions, each also the field of an event that it reads: 1 to 64.
    pub fn dimensions(&self) -> &Texts
        ensures { result.now ≡ self.now.dimensions }
    {
        &self.0.dimensions
    }

    /// The metric columns, 0 to 64.
    pub fn metrics(&self) -> &Metrics
        ensures { result.now ≡ self.now.metrics }
    {
        &self.0.metrics
    }

    /// How long a chunk is: a second up to a year.
    pub fn segment_granularity(&self) -> Gran
        ensures value { result ≡ self.now.segment_granularity }
        ensures chunk_length { is_chunk_length result ≡ true }
        ensures kind { is_all result ≡ false }
    {
        self.0.segment_granularity
    }

    /// What the time of an event is truncated to, which isn't `all`.
    pub fn query_granularity(&self) -> Gran
        ensures value { result ≡ self.now.query_granularity }
        ensures kind { is_all result ≡ false }
    {
        self.0.query_granularity
    }

    /// Whether events of equal truncated time and equal dimensions become one row.
    pub fn rollup(&self) -> bool
        ensures { result ≡ self.now.rollup }
    {
        self.0.rollup
    }

    /// What the data source is bounded by.
    pub fn limits(&self) -> Limits
        ensures { result ≡ self.now.limits }
    {
        self.0.limits
    }
}
