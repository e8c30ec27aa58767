ghost use Rattle.std.specs.Prelude.{◌≡◌};
ghost use Rattle.dr_dict.specs.declared.dict_error.DictError.TheVariants.{NoMemory};
ghost use Rattle.dr_dict.specs.Refusal.{number_of, name_of};

use std::alloc::{AllocError, AllocFailed};
use thiserror::Error;

/// Why a dictionary refused a text.
#[derive(Clone, Copy, Debug, PartialEq, Eq, Error)]
pub enum DictError {
    /// 0: memory ran out.
    #[error("out of memory")]
    NoMemory,
    /// 40: the text is new, and the dictionary has as many texts as it may have.
    #[error("the dictionary is full")]
    DictFull,
}

impl DictError {
    /// The number of the refusal, 0 or 40.
    pub fn number(&self) -> u16
        ensures { result ≡ number_of self.now }
    {
        match self {
            DictError::NoMemory => 0,
            DictError::DictFull => 40,
        }
    }

    /// The name of the refusal, as `DictFull`.
    pub fn name(&self) -> &'static str
        ensures { result.now ≡ name_of self.now }
    {
        match self {
            DictError::NoMemory => "NoMemory",
            DictError::DictFull => "DictFull",
        }
    }
}

impl From<AllocError> for DictError {
    ghost from_gives = { λ _ e. e ≡ NoMemory };

    fn from(_error: AllocError) -> DictError {
        DictError::NoMemory
    }
}

impl<T: Drop> From<AllocFailed<T>> for DictError {
    ghost from_gives = { λ _ e. e ≡ NoMemory };

    fn from(_error: AllocFailed<T>) -> DictError {
        DictError::NoMemory
    }
}
