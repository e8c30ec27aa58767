ghost use Rattle.std.specs.Prelude.{◌≡◌};
ghost use Rattle.dr_base.specs.declared.base_error.BaseError.TheVariants.{NoMemory};
ghost use Rattle.dr_filter.specs.declared.filter_error.FilterError.TheVariants.{Base};
ghost use Rattle.dr_filter.specs.Refusal.{number_of, name_of, arg_of, of_intervals};

use dr_base::{Arg, BaseError, Text};
use dr_intervals::IntervalsError;
use dr_time::TimeError;
use std::alloc::{AllocError, AllocFailed};
use thiserror::Error;

/// Why a filter was refused.
#[derive(Debug, Drop, Error)]
pub enum FilterError {
    /// 0, 2 or 3: memory ran out, or a field is missing or of another kind.
    #[error(transparent)]
    Base(BaseError),
    /// 11 to 13: a text is no interval.
    #[error(transparent)]
    Time(TimeError),
    /// 60: a type, an order or a key that is not read.
    #[error("unknown filter {0}")]
    UnknownFilter(Text),
    /// 61: a filter reads a metric, or `__time`.
    #[error("a filter on {0}")]
    FilterOnMetric(Text),
    /// 62: filters nest over 64 deep.
    #[error("filters nest too deep")]
    TooDeep,
}

impl FilterError {
    /// The number of the refusal: 0, 2, 3, 11 to 13, or 60 to 62.
    pub fn number(&self) -> u16
        ensures { result ≡ number_of self.now }
    {
        match self {
            FilterError::Base(error) => error.number(),
            FilterError::Time(error) => error.number(),
            FilterError::UnknownFilter(_) => 60,
            FilterError::FilterOnMetric(_) => 61,
            FilterError::TooDeep => 62,
        }
    }

    /// The name of the refusal, as `UnknownFilter`.
    pub fn name(&self) -> &'static str
        ensures { result.now ≡ name_of self.now }
    {
        match self {
            FilterError::Base(error) => error.name(),
            FilterError::Time(error) => error.name(),
            FilterError::UnknownFilter(_) => "UnknownFilter",
            FilterError::FilterOnMetric(_) => "FilterOnMetric",
            FilterError::TooDeep => "TooDeep",
        }
    }

    /// The type, key or column that was refused, where the refusal carries one.
    pub fn arg(self) -> Option<Arg>
        ensures { result ≡ arg_of self }
    {
        match self {
            FilterError::Base(error) => error.arg(),
            FilterError::Time(_) | FilterError::TooDeep => None,
            FilterError::UnknownFilter(name) | FilterError::FilterOnMetric(name) => {
                Some(Arg::Name(name))
            }
        }
    }
}

impl From<BaseError> for FilterError {
    ghost from_gives = { λ e result. result ≡ Base e };

    fn from(error: BaseError) -> FilterError {
        FilterError::Base(error)
    }
}

impl From<IntervalsError> for FilterError {
    ghost from_gives = { λ e result. result ≡ of_intervals e };

    fn from(error: IntervalsError) -> FilterError {
        match error {
            IntervalsError::Base(error) => FilterError::Base(error),
            IntervalsError::Time(error) => FilterError::Time(error),
            IntervalsError::Unread(name) => FilterError::UnknownFilter(name),
        }
    }
}

impl From<AllocError> for FilterError {
    ghost from_gives = { λ _ e. e ≡ Base NoMemory };

    fn from(_error: AllocError) -> FilterError {
        FilterError::Base(BaseError::NoMemory)
    }
}

impl<T: Drop> From<AllocFailed<T>> for FilterError {
    ghost from_gives = { λ _ e. e ≡ Base NoMemory };

    fn from(_error: AllocFailed<T>) -> FilterError {
        FilterError::Base(BaseError::NoMemory)
    }
}
