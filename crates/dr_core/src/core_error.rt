ghost use Rattle.std.specs.Prelude.{◌≡◌};
ghost use Rattle.dr_core.specs.declared.core_error.CoreError.TheVariants as error;
ghost use Rattle.dr_core.specs.Refusal.{number_of, name_of};
ghost use Rattle.dr_timeline.specs.declared.timeline_error.TimelineError.TheVariants.{NoMemory};

use dr_merge::MergeError;
use dr_timeline::TimelineError;
use std::alloc::{AllocError, AllocFailed};
use thiserror::Error;

/// Why a step of a core changed nothing.
#[derive(Clone, Copy, Debug, PartialEq, Eq, Error)]
pub enum CoreError {
    /// 101: there is no job or no snapshot of that number.
    #[error("there is no job or snapshot of that number")]
    NoSuch,
    /// A refusal of the work of a job: 0 or 59.
    #[error(transparent)]
    Merge(MergeError),
    /// A refusal of the timeline: 0, 59, 90 to 93, or 95.
    #[error(transparent)]
    Timeline(TimelineError),
}

impl CoreError {
    /// The number of the refusal: 0, 59, 90 to 93, 95 or 101.
    pub fn number(&self) -> u16
        ensures { result ≡ number_of self.now }
    {
        match self {
            CoreError::NoSuch => 101,
            CoreError::Merge(error) => error.number(),
            CoreError::Timeline(error) => error.number(),
        }
    }

    /// The name of the refusal, as `StreamFull`; that of 101 is `BadCommand`.
    pub fn name(&self) -> &'static str
        ensures { result.now ≡ name_of self.now }
    {
        match self {
            CoreError::NoSuch => "BadCommand",
            CoreError::Merge(error) => error.name(),
            CoreError::Timeline(error) => error.name(),
        }
    }
}

impl From<MergeError> for CoreError {
    ghost from_gives = { λ e result. result ≡ error.Merge e };

    fn from(error: MergeError) -> CoreError {
        CoreError::Merge(error)
    }
}

impl From<TimelineError> for CoreError {
    ghost from_gives = { λ e result. result ≡ error.Timeline e };

    fn from(error: TimelineError) -> CoreError {
        CoreError::Timeline(error)
    }
}

impl From<AllocError> for CoreError {
    ghost from_gives = { λ _ e. e ≡ error.Timeline NoMemory };

    fn from(_error: AllocError) -> CoreError {
        CoreError::Timeline(TimelineError::NoMemory)
    }
}

impl<T: Drop> From<AllocFailed<T>> for CoreError {
    ghost from_gives = { λ _ e. e ≡ error.Timeline NoMemory };

    fn from(_error: AllocFailed<T>) -> CoreError {
        CoreError::Timeline(TimelineError::NoMemory)
    }
}
