use dr_agg::Kind;

/// A metric column of a schema: its place in the schema's list, from 0, and how its values are combined.
#[derive(Clone, Copy, Debug, PartialEq, Eq)]
pub struct Column {
    pub place: usize,
    pub kind: Kind,
}
