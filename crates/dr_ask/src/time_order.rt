/// The order of a scan's rows by their times (Apache Druid documentation, scan queries).
#[derive(Clone, Copy, Debug, PartialEq, Eq)]
pub enum TimeOrder {
    Ascending,
    /// Rows of equal times stay in their order.
    Descending,
}
