use dr_ask::Query;
use dr_spec::IngestSpec;

/// What is loaded, and what is asked of it.
#[derive(Drop)]
pub(crate) struct Order<R> {
    pub(crate) spec: IngestSpec,
    pub(crate) query: Box<Query>,
    pub(crate) files: Vec<R>,
    pub(crate) workers: u8,
}
