ghost use Rattle.std.specs.Prelude.{◌≡◌};
ghost use Rattle.dr_base.specs.declared.base_error.BaseError.TheVariants.{NoMemory};
ghost use Rattle.dr_base.specs.Refusal.{number_of, name_of, arg_of};

use crate::fault::Arg;
use crate::text::Text;
use std::alloc::{AllocError, AllocFailed};
use thiserror::Error;

/// Why a JSON text or a field of a JSON value was refused.
#[derive(Debug, Drop, Error)]
pub enum BaseError {
    /// 0: memory ran out.
    #[error("out of memory")]
    NoMemory,
    /// 1: the bytes are no JSON text.
    #[error("not JSON")]
    NotJson,
    /// 2: the field is required, and is absent or null.
    #[error("{0} is missing")]
    Missing(Text),
    /// 3: the value of the field, or the value of that name itself, is of another kind, or out of its bounds.
    #[error("{0} is of the wrong kind")]
    WrongKind(Text),
}

impl BaseError {
    /// The number of the refusal, 0 to 3.
    pub fn number(&self) -> u16
        ensures { result ≡ number_of self.now }
    {
        match self {
            BaseError::NoMemory => 0,
            BaseError::NotJson => 1,
            BaseError::Missing(_) => 2,
            BaseError::WrongKind(_) => 3,
        }
    }

    /// The name of the refusal, as `WrongKind`.
    pub fn name(&self) -> &'static str
        ensures { result.now ≡ name_of self.now }
    {
        match self {
            BaseError::NoMemory => "NoMemory",
            BaseError::NotJson => "NotJson",
            BaseError::Missing(_) => "Missing",
            BaseError::WrongKind(_) => "WrongKind",
        }
    }

    /// The field that was refused, where the refusal carries one.
    pub fn arg(self) -> Option<Arg>
        ensures { result ≡ arg_of self }
    {
        match self {
            BaseError::NoMemory | BaseError::NotJson => None,
            BaseError::Missing(field) | BaseError::WrongKind(field) => Some(Arg::Name(field)),
        }
    }
}

impl From<AllocError> for BaseError {
    ghost from_gives = { λ _ e. e ≡ NoMemory };

    fn from(_error: AllocError) -> BaseError {
        BaseError::NoMemory
    }
}

impl<T: Drop> From<AllocFailed<T>> for BaseError {
    ghost from_gives = { λ _ e. e ≡ NoMemory };

    fn from(_error: AllocFailed<T>) -> BaseError {
        BaseError::NoMemory
    }
}
