use dr_agg::Kind;

/// What a metric reads of an event: by its kind, and at which place the name of its field stands, where it reads one.
#[derive(Clone, Copy, Debug, Drop)]
pub struct Input {
    pub kind: Kind,
    pub field: Option<usize>,
}
