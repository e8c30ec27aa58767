ghost use Rattle.std.specs.Prelude.{◌≡◌};
ghost use Rattle.dr_dump.specs.declared.dump_error.DumpError.TheVariants.{NoMemory, Image};
ghost use Rattle.dr_dump.specs.Refusal.{number_of, name_of};

use dr_image::ImageError;
use std::alloc::{AllocError, AllocFailed};
use thiserror::Error;

/// Why a file was refused as the text of an image.
#[derive(Clone, Copy, Debug, PartialEq, Eq, Error)]
pub enum DumpError {
    /// 0: memory ran out.
    #[error("out of memory")]
    NoMemory,
    /// 50 to 58: the bytes that are spelled are no image.
    #[error(transparent)]
    Image(ImageError),
    /// 101: the file isn't a line of pairs of lower-case hexadecimal digits.
    #[error("no hexadecimal text")]
    BadCommand,
}

impl DumpError {
    /// The number of the refusal: 0, 50 to 58, or 101.
    pub fn number(self) -> u16
        ensures { result ≡ number_of self }
    {
        match self {
            DumpError::NoMemory => 0,
            DumpError::Image(error) => error.number(),
            DumpError::BadCommand => 101,
        }
    }

    /// The name of the refusal, as `BadCommand`.
    pub fn name(self) -> &'static str
        ensures { result.now ≡ name_of self }
    {
        match self {
            DumpError::NoMemory => "NoMemory",
            DumpError::Image(error) => error.name(),
            DumpError::BadCommand => "BadCommand",
        }
    }
}

impl From<ImageError> for DumpError {
    ghost from_gives = { λ e result. result ≡ Image e };

    fn from(error: ImageError) -> DumpError {
        DumpError::Image(error)
    }
}

impl From<AllocError> for DumpError {
    ghost from_gives = { λ _ e. e ≡ NoMemory };

    fn from(_error: AllocError) -> DumpError {
        DumpError::NoMemory
    }
}

impl<T: Drop> From<AllocFailed<T>> for DumpError {
    ghost from_gives = { λ _ e. e ≡ NoMemory };

    fn from(_error: AllocFailed<T>) -> DumpError {
        DumpError::NoMemory
    }
}
