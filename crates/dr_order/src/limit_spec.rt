use crate::order_columns::OrderColumns;

/// What a groupBy gives of its groups, and in which order (Apache Druid documentation, groupBy queries: limitSpec): over all
/// buckets together, without the first `offset` groups, and at most `limit` of them where there is a limit.
#[derive(Debug, Drop)]
pub struct LimitSpec {
    pub columns: OrderColumns,
    pub offset: u64,
    pub limit: Option<u64>,
}
