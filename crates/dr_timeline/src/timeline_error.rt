ghost use Rattle.std.specs.Prelude.{◌≡◌};
ghost use Rattle.dr_timeline.specs.declared.timeline_error.TimelineError.TheVariants.{NoMemory};
ghost use Rattle.dr_timeline.specs.Refusal.{number_of, name_of};

use std::alloc::{AllocError, AllocFailed};
use thiserror::Error;

/// Why a timeline refused a step.
#[derive(Clone, Copy, Debug, PartialEq, Eq, Error)]
pub enum TimelineError {
    /// 0: memory ran out.
    #[error("out of memory")]
    NoMemory,
    /// 59: the image of the range has more bytes than the spec allows.
    #[error("an image that is too large")]
    ImageTooLarge,
    /// 90: as many events are retained as the spec allows.
    #[error("the stream is full")]
    StreamFull,
    /// 91: the chunk has no event in its open range.
    #[error("the chunk has nothing to seal")]
    NothingToSeal,
    /// 92: the places name no sealed ranges of the chunk.
    #[error("there is no such range")]
    NoSuchRange,
    /// 93: the ranges that the job was planned over do not stand there any more.
    #[error("the job is stale")]
    Stale,
    /// 95: there were as many commits as the spec allows.
    #[error("there were as many commits as there may be")]
    CommitsFull,
}

impl TimelineError {
    /// The number of the refusal: 0, 59, 90 to 93 or 95.
    pub fn number(&self) -> u16
        ensures { result ≡ number_of self.now }
    {
        match self {
            TimelineError::NoMemory => 0,
            TimelineError::ImageTooLarge => 59,
            TimelineError::StreamFull => 90,
            TimelineError::NothingToSeal => 91,
            TimelineError::NoSuchRange => 92,
            TimelineError::Stale => 93,
            TimelineError::CommitsFull => 95,
        }
    }

    /// The name of the refusal, as `StreamFull`.
    pub fn name(&self) -> &'static str
        ensures { result.now ≡ name_of self.now }
    {
        match self {
            TimelineError::NoMemory => "NoMemory",
            TimelineError::ImageTooLarge => "ImageTooLarge",
            TimelineError::StreamFull => "StreamFull",
            TimelineError::NothingToSeal => "NothingToSeal",
            TimelineError::NoSuchRange => "NoSuchRange",
            TimelineError::Stale => "Stale",
            TimelineError::CommitsFull => "CommitsFull",
        }
    }
}

impl From<AllocError> for TimelineError {
    ghost from_gives = { λ _ e. e ≡ NoMemory };

    fn from(_error: AllocError) -> TimelineError {
        TimelineError::NoMemory
    }
}

impl<T: Drop> From<AllocFailed<T>> for TimelineError {
    ghost from_gives = { λ _ e. e ≡ NoMemory };

    fn from(_error: AllocFailed<T>) -> TimelineError {
        TimelineError::NoMemory
    }
}
