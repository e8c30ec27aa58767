use dr_rowindex::NumberOrder;

/// Groups in the order of the values of an aggregation, by its place in the query.
#[derive(Drop)]
pub struct OrderedNumbers {
    pub place: usize,
    pub order: NumberOrder,
}
