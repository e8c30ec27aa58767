/// What a reader of lines found.
#[derive(Clone, Copy, Debug, PartialEq, Eq)]
pub enum NextLine {
    /// A line, which is kept.
    Line,
    /// A line of more than 1048576 bytes, which was skipped to its end.
    TooLong,
    /// No line: the input is at its end.
    End,
    /// A read failed, or there were 2^32 reads. What was read of a line is lost.
    Failed,
}
