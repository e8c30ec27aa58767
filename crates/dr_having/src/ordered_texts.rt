use dr_rowindex::TextOrder;

/// Groups in the order of the values of a dimension, by its place in the query.
#[derive(Drop)]
pub struct OrderedTexts<'a> {
    pub place: usize,
    pub order: TextOrder<'a>,
}
