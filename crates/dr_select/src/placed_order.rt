use dr_rowindex::TextOrder;

/// Rows in the order of their values at a place among the dimensions.
#[derive(Drop)]
pub struct PlacedOrder<'a> {
    pub place: Option<usize>,
    pub order: TextOrder<'a>,
}
