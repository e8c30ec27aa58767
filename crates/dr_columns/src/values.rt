/// What is read of the rows of an image.
#[derive(Clone, Copy)]
pub enum Values<'a> {
    /// The same number of each row.
    Same(i64),
    /// The numbers of a metric as they lie in the image: eight bytes each, the lowest first, with a sign.
    Column(&'a [[u8; 8]]),
}
