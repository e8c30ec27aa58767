ghost use Rattle.std.specs.Prelude.{◌≡◌};
ghost use Rattle.dr_base.specs.declared.base_error.BaseError.TheVariants.{NoMemory};
ghost use Rattle.dr_intervals.specs.declared.intervals_error.IntervalsError.TheVariants.{Base, Time};

use dr_base::{BaseError, Text};
use dr_time::TimeError;
use std::alloc::{AllocError, AllocFailed};
use thiserror::Error;

/// Why intervals were refused.
#[derive(Debug, Drop, Error)]
pub enum IntervalsError {
    /// 0, 2 or 3: memory ran out, or a field is missing or of another kind.
    #[error(transparent)]
    Base(BaseError),
    /// 11 to 13: a text is no interval.
    #[error(transparent)]
    Time(TimeError),
    /// A type or a key that is not read, with its name. A filter numbers it 60, a query 76.
    #[error("unread {0}")]
    Unread(Text),
}

impl From<BaseError> for IntervalsError {
    ghost from_gives = { λ e result. result ≡ Base e };

    fn from(error: BaseError) -> IntervalsError {
        IntervalsError::Base(error)
    }
}

impl From<TimeError> for IntervalsError {
    ghost from_gives = { λ e result. result ≡ Time e };

    fn from(error: TimeError) -> IntervalsError {
        IntervalsError::Time(error)
    }
}

impl From<AllocError> for IntervalsError {
    ghost from_gives = { λ _ e. e ≡ Base NoMemory };

    fn from(_error: AllocError) -> IntervalsError {
        IntervalsError::Base(BaseError::NoMemory)
    }
}

impl<T: Drop> From<AllocFailed<T>> for IntervalsError {
    ghost from_gives = { λ _ e. e ≡ Base NoMemory };

    fn from(_error: AllocFailed<T>) -> IntervalsError {
        IntervalsError::Base(BaseError::NoMemory)
    }
}
