use dr_outputs::{OutputNumbers, OutputTexts};

/// The outputs of a group of which a `having` may ask: its dimension values and the values of its aggregations, each in the order of
/// the query.
#[derive(Drop)]
pub struct GroupOutputs<'a> {
    pub dims: OutputTexts<'a>,
    pub values: OutputNumbers<'a>,
}
