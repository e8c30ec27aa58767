use dr_base::Text;

/// A condition on the value of a dimension: its place among the dimensions of the query, from 0, and the text that it is.
#[derive(Debug, Drop)]
pub struct DimensionValue {
    pub place: usize,
    pub value: Text,
}
