ghost use Rattle.std.specs.Prelude.{◌≡◌};
ghost use Rattle.dr_merge.specs.declared.merge_error.MergeError.TheVariants.{NoMemory};
ghost use Rattle.dr_merge.specs.Refusal.{number_of, name_of};

use std::alloc::{AllocError, AllocFailed};
use thiserror::Error;

/// Why ranges weren't joined.
#[derive(Clone, Copy, Debug, PartialEq, Eq, Error)]
pub enum MergeError {
    /// 0: memory ran out.
    #[error("out of memory")]
    NoMemory,
    /// 59: the image of the joined range has more bytes than the data source allows.
    #[error("an image that is too large")]
    ImageTooLarge,
}

impl MergeError {
    /// The number of the refusal, 0 or 59.
    pub fn number(&self) -> u16
        ensures { result ≡ number_of self.now }
    {
        match self {
            MergeError::NoMemory => 0,
            MergeError::ImageTooLarge => 59,
        }
    }

    /// The name of the refusal, as `ImageTooLarge`.
    pub fn name(&self) -> &'static str
        ensures { result.now ≡ name_of self.now }
    {
        match self {
            MergeError::NoMemory => "NoMemory",
            MergeError::ImageTooLarge => "ImageTooLarge",
        }
    }
}

impl From<AllocError> for MergeError {
    ghost from_gives = { λ _ e. e ≡ NoMemory };

    fn from(_error: AllocError) -> MergeError {
        MergeError::NoMemory
    }
}

impl<T: Drop> From<AllocFailed<T>> for MergeError {
    ghost from_gives = { λ _ e. e ≡ NoMemory };

    fn from(_error: AllocFailed<T>) -> MergeError {
        MergeError::NoMemory
    }
}
