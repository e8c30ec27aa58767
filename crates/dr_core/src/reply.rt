use crate::bytes::Bytes;

/// The reply to a step of a run of the core.
#[derive(Debug, Drop)]
pub enum Reply {
    /// The event was accepted; its number in the stream, from 0.
    Accepted(u64),
    /// The open range was sealed.
    Sealed,
    /// A job was planned; its number, from 0.
    Job(usize),
    /// A job was committed; the version of the new range.
    Committed(u64),
    /// A snapshot was pinned; its number, from 0.
    Pinned(usize),
    /// The text of an answer, JSON in UTF-8.
    Answer(Bytes),
    /// The step was refused; the number of the refusal. Nothing changed.
    Refused(u16),
    /// There is no job or no pin of that number. Nothing changed.
    NoSuch,
}
