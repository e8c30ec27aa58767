use dr_base::Row;
use dr_image::SegmentView;
use dr_rollup::OpenIndex;

/// What holds the rows of a range, lent by it.
#[derive(Drop)]
pub enum Form<'a> {
    /// The rows, in the order of their keys.
    Rows(&'a [Row]),
    /// The columns of an image, whose rows stand in the order of their keys.
    Image(SegmentView<'a>),
    /// The index of a range that was open when it was pinned, or sealed and not merged yet. Its rows stand in the order in which
    /// their keys came.
    Index(&'a OpenIndex),
}
