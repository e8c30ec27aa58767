/// Where a row lies: its time in milliseconds since the epoch, the place of its segment, and its number in it, each from 0.
#[derive(Clone, Copy, Debug, PartialEq, Eq)]
pub(crate) struct RowPlace {
    pub time: i64,
    pub segment: usize,
    pub row: usize,
}
