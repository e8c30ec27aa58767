ghost use Rattle.std.specs.Prelude.{◌≡◌};
ghost use Rattle.dr_base.specs.declared.base_error.BaseError.TheVariants.{NoMemory};
ghost use Rattle.dr_having.specs.declared.having_error.HavingError.TheVariants.{Base};
ghost use Rattle.dr_having.specs.Refusal.{number_of, name_of, arg_of};

use dr_base::{Arg, BaseError, Text};
use std::alloc::{AllocError, AllocFailed};
use thiserror::Error;

/// Why a `having` was refused.
#[derive(Debug, Drop, Error)]
pub enum HavingError {
    /// 0, 2 or 3: memory ran out, or a field is missing or of another kind.
    #[error(transparent)]
    Base(BaseError),
    /// 62: conditions nest over 64 deep.
    #[error("conditions nest too deep")]
    TooDeep,
    /// 76: a type or a key that is not read.
    #[error("unsupported {0}")]
    Unsupported(Text),
    /// 77: no output of that kind has this name.
    #[error("unknown column of having {0}")]
    UnknownHavingColumn(Text),
}

impl HavingError {
    /// The number of the refusal: 0, 2, 3, 62, 76 or 77.
    pub fn number(&self) -> u16
        ensures { result ≡ number_of self.now }
    {
        match self {
            HavingError::Base(error) => error.number(),
            HavingError::TooDeep => 62,
            HavingError::Unsupported(_) => 76,
            HavingError::UnknownHavingColumn(_) => 77,
        }
    }

    /// The name of the refusal, as `UnknownHavingColumn`.
    pub fn name(&self) -> &'static str
        ensures { result.now ≡ name_of self.now }
    {
        match self {
            HavingError::Base(error) => error.name(),
            HavingError::TooDeep => "TooDeep",
            HavingError::Unsupported(_) => "Unsupported",
            HavingError::UnknownHavingColumn(_) => "UnknownHavingColumn",
        }
    }

    /// The type, key or column that was refused, where the refusal carries one.
    pub fn arg(self) -> Option<Arg>
        ensures { result ≡ arg_of self }
    {
        match self {
            HavingError::Base(error) => error.arg(),
            HavingError::TooDeep => None,
            HavingError::Unsupported(name) | HavingError::UnknownHavingColumn(name) => {
                Some(Arg::Name(name))
            }
        }
    }
}

impl From<BaseError> for HavingError {
    ghost from_gives = { λ e result. result ≡ Base e };

    fn from(error: BaseError) -> HavingError {
        HavingError::Base(error)
    }
}

impl From<AllocError> for HavingError {
    ghost from_gives = { λ _ e. e ≡ Base NoMemory };

    fn from(_error: AllocError) -> HavingError {
        HavingError::Base(BaseError::NoMemory)
    }
}

impl<T: Drop> From<AllocFailed<T>> for HavingError {
    ghost from_gives = { λ _ e. e ≡ Base NoMemory };

    fn from(_error: AllocFailed<T>) -> HavingError {
        HavingError::Base(BaseError::NoMemory)
    }
}
