/// The numbers of the rows' values in a dimension as they lie in an image, and how many values the dimension has. A dimension that the
/// image lacks has no number, and one value.
#[derive(Clone, Copy)]
pub struct Numbered<'a> {
    pub numbers: &'a [[u8; 4]],
    pub values: usize,
}
