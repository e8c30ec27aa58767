/// A group that was found of a row of an image: the start of the bucket, the row's number, and the place of the group.
#[derive(Clone, Copy)]
pub struct Known {
    pub bucket: i64,
    pub row: usize,
    pub place: usize,
}
