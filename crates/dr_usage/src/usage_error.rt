ghost use Rattle.std.specs.Prelude.{◌≡◌};
ghost use Rattle.dr_usage.specs.declared.usage_error.UsageError.TheVariants.{NoMemory};
ghost use Rattle.dr_usage.specs.Refusal.{number_of, name_of};

use std::alloc::{AllocError, AllocFailed};
use thiserror::Error;

/// Why the words of a command line were refused.
#[derive(Clone, Copy, Debug, PartialEq, Eq, Error)]
pub enum UsageError {
    /// 0: memory ran out.
    #[error("out of memory")]
    NoMemory,
    /// 103: the words are none that the program takes.
    #[error("bad usage")]
    BadUsage,
}

impl UsageError {
    /// The number of the refusal: 0 or 103.
    pub fn number(self) -> u16
        ensures { result ≡ number_of self }
    {
        match self {
            UsageError::NoMemory => 0,
            UsageError::BadUsage => 103,
        }
    }

    /// The name of the refusal, as `BadUsage`.
    pub fn name(self) -> &'static str
        ensures { result.now ≡ name_of self }
    {
        match self {
            UsageError::NoMemory => "NoMemory",
            UsageError::BadUsage => "BadUsage",
        }
    }
}

impl From<AllocError> for UsageError {
    ghost from_gives = { λ _ e. e ≡ NoMemory };

    fn from(_error: AllocError) -> UsageError {
        UsageError::NoMemory
    }
}

impl<T: Drop> From<AllocFailed<T>> for UsageError {
    ghost from_gives = { λ _ e. e ≡ NoMemory };

    fn from(_error: AllocFailed<T>) -> UsageError {
        UsageError::NoMemory
    }
}
