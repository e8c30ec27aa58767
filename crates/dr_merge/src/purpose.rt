/// What the ranges of a job are joined for.
#[derive(Clone, Copy, Debug, PartialEq, Eq)]
pub enum Purpose {
    /// They become one range, which stays unpublished as long as one of them is.
    Merge,
    /// They become one published range, whose version is the chunk's next number of a publication.
    Publish,
}
