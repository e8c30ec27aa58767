ghost use Rattle.std.specs.Prelude.{◌≡◌};
ghost use Rattle.dr_base.specs.declared.base_error.BaseError.TheVariants.{NoMemory};
ghost use Rattle.dr_spec.specs.declared.spec_error.SpecError.TheVariants.{Base, Granularity};
ghost use Rattle.dr_spec.specs.Refusal.{number_of, name_of, arg_of};

use dr_base::{Arg, BaseError, Text};
use dr_gran::GranError;
use std::alloc::{AllocError, AllocFailed};
use thiserror::Error;

/// Why an ingestion spec was refused.
#[derive(Debug, Drop, Error)]
pub enum SpecError {
    /// 0 to 3: memory ran out, the bytes are no JSON, a field is missing or of the wrong kind.
    #[error(transparent)]
    Base(BaseError),
    /// 20: dimensions of that type are not supported.
    #[error("dimensions of type {0} are not supported")]
    UnsupportedDimension(Text),
    /// 21: metrics of that type are not supported.
    #[error("metrics of type {0} are not supported")]
    UnsupportedMetric(Text),
    /// 22: a value is no granularity, or one that is not supported there.
    #[error(transparent)]
    Granularity(GranError),
    /// 23: the buckets of the query granularity do not nest in those of the segment granularity.
    #[error("the query granularity does not nest in the segment granularity")]
    NotNested,
    /// 24: two columns have that name, or a dimension or a metric is called `__time`.
    #[error("{0} names two columns")]
    DuplicateName(Text),
    /// 25: there is no dimension.
    #[error("no dimensions")]
    NoDimensions,
    /// 26: that key, or that value of a key, is not supported.
    #[error("{0} is not supported")]
    Unsupported(Text),
    /// 27: there are more than 64 dimensions, or more than 64 metrics.
    #[error("too many columns")]
    TooManyColumns,
}

impl SpecError {
    /// The number of the refusal, 0 to 3 and 20 to 27.
    pub fn number(&self) -> u16
        ensures { result ≡ number_of self.now }
    {
        match self {
            SpecError::Base(error) => error.number(),
            SpecError::UnsupportedDimension(_) => 20,
            SpecError::UnsupportedMetric(_) => 21,
            SpecError::Granularity(error) => error.number(),
            SpecError::NotNested => 23,
            SpecError::DuplicateName(_) => 24,
            SpecError::NoDimensions => 25,
            SpecError::Unsupported(_) => 26,
            SpecError::TooManyColumns => 27,
        }
    }

    /// The name of the refusal, as `NoDimensions`.
    pub fn name(&self) -> &'static str
        ensures { result.now ≡ name_of self.now }
    {
        match self {
            SpecError::Base(error) => error.name(),
            SpecError::UnsupportedDimension(_) => "UnsupportedDimension",
            SpecError::UnsupportedMetric(_) => "UnsupportedMetric",
            SpecError::Granularity(error) => error.name(),
            SpecError::NotNested => "NotNested",
            SpecError::DuplicateName(_) => "DuplicateName",
            SpecError::NoDimensions => "NoDimensions",
            SpecError::Unsupported(_) => "Unsupported",
            SpecError::TooManyColumns => "TooManyColumns",
        }
    }

    /// The name that was refused, where the refusal carries one.
    pub fn arg(self) -> Option<Arg>
        ensures { result ≡ arg_of self }
    {
        match self {
            SpecError::Base(error) => error.arg(),
            SpecError::Granularity(error) => error.arg(),
            SpecError::UnsupportedDimension(name)
            | SpecError::UnsupportedMetric(name)
            | SpecError::DuplicateName(name)
            | SpecError::Unsupported(name) => Some(Arg::Name(name)),
            SpecError::NotNested | SpecError::NoDimensions | SpecError::TooManyColumns => None,
        }
    }
}

impl From<BaseError> for SpecError {
    ghost from_gives = { λ error result. result ≡ Base error };

    fn from(refusal: BaseError) -> SpecError {
        SpecError::Base(refusal)
    }
}

impl From<GranError> for SpecError {
    ghost from_gives = { λ error result. result ≡ Granularity error };

    fn from(refusal: GranError) -> SpecError {
        SpecError::Granularity(refusal)
    }
}

impl From<AllocError> for SpecError {
    ghost from_gives = { λ _ result. result ≡ Base NoMemory };

    fn from(_error: AllocError) -> SpecError {
        SpecError::Base(BaseError::NoMemory)
    }
}

impl<T: Drop> From<AllocFailed<T>> for SpecError {
    ghost from_gives = { λ _ result. result ≡ Base NoMemory };

    fn from(_error: AllocFailed<T>) -> SpecError {
        SpecError::from(BaseError::NoMemory)
    }
}
