//! The ingestion spec, as the documentation of Apache Druid has it, read from JSON.
//! Each text is either the one schema that it spells, or the first refusal.
#![tactic(auto)]

mod columns;
mod dimensions_spec;
mod granularity_spec;
mod ingest_spec;
mod leniency;
mod metrics_spec;
mod reading;
mod sections;
mod spec_error;
mod timestamp_spec;
mod tuning_config;

pub use ingest_spec::IngestSpec;
pub use spec_error::SpecError;
