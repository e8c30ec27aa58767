use crate::segment::Segment;
use dr_fragment::LyingRows;

/// What has rows.
pub(crate) trait RowCount {
    /// How many.
    fn row_count(&self) -> usize;
}

impl<'a> RowCount for Segment<'a> {
    fn row_count(&self) -> usize {
        self.fragment.len()
    }
}

impl<'a> RowCount for LyingRows<'a> {
    fn row_count(&self) -> usize {
        self.len()
    }
}
