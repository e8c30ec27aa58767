ghost use Rattle.std.specs.Prelude.{◌≡◌};
ghost use Rattle.dr_image.specs.declared.image_error.ImageError.TheVariants.{NoMemory};
ghost use Rattle.dr_image.specs.Refusal.{number_of, name_of};

use std::alloc::{AllocError, AllocFailed};
use thiserror::Error;

/// Why bytes were refused as an image, or why a sealed range has none.
#[derive(Clone, Copy, Debug, Error, PartialEq, Eq)]
pub enum ImageError {
    /// 0: memory ran out.
    #[error("out of memory")]
    NoMemory,
    /// 50: there are fewer than 16 bytes, or fewer than the image says that it has.
    #[error("an image that was cut short")]
    Truncated,
    /// 51: the bytes don't begin with `DRSG`.
    #[error("not an image")]
    BadMagic,
    /// 52: the version isn't known, or the mark of rollup is neither 0 nor 1.
    #[error("an image of an unknown version")]
    BadVersion,
    /// 53: the lengths don't fit each other, or are out of their bounds.
    #[error("an image of the wrong length")]
    BadLength,
    /// 54: a dictionary isn't one of UTF-8 texts that ascend.
    #[error("a dictionary out of order")]
    DictOrder,
    /// 55: the number of a value isn't in the dictionary.
    #[error("a number that is in no dictionary")]
    NumberOutOfDict,
    /// 56: a time is out of its range, or rows aren't in order.
    #[error("rows out of order")]
    RowOrder,
    /// 57: the row list of a value isn't that of the rows that have it.
    #[error("a row list that doesn't fit the rows")]
    BadIndex,
    /// 58: the digest isn't that of the bytes before it.
    #[error("an image that was changed")]
    DigestMismatch,
    /// 59: the image has more bytes than the data source allows.
    #[error("an image that is too large")]
    ImageTooLarge,
}

impl ImageError {
    /// The number of the refusal, 0 or 50 to 59.
    pub fn number(self) -> u16
        ensures { result ≡ number_of self }
    {
        match self {
            ImageError::NoMemory => 0,
            ImageError::Truncated => 50,
            ImageError::BadMagic => 51,
            ImageError::BadVersion => 52,
            ImageError::BadLength => 53,
            ImageError::DictOrder => 54,
            ImageError::NumberOutOfDict => 55,
            ImageError::RowOrder => 56,
            ImageError::BadIndex => 57,
            ImageError::DigestMismatch => 58,
            ImageError::ImageTooLarge => 59,
        }
    }

    /// The name of the refusal, as `BadMagic`.
    pub fn name(self) -> &'static str
        ensures { result.now ≡ name_of self }
    {
        match self {
            ImageError::NoMemory => "NoMemory",
            ImageError::Truncated => "Truncated",
            ImageError::BadMagic => "BadMagic",
            ImageError::BadVersion => "BadVersion",
            ImageError::BadLength => "BadLength",
            ImageError::DictOrder => "DictOrder",
            ImageError::NumberOutOfDict => "NumberOutOfDict",
            ImageError::RowOrder => "RowOrder",
            ImageError::BadIndex => "BadIndex",
            ImageError::DigestMismatch => "DigestMismatch",
            ImageError::ImageTooLarge => "ImageTooLarge",
        }
    }
}

impl From<AllocError> for ImageError {
    ghost from_gives = { λ _ e. e ≡ NoMemory };

    fn from(_error: AllocError) -> ImageError {
        ImageError::NoMemory
    }
}

impl<T: Drop> From<AllocFailed<T>> for ImageError {
    ghost from_gives = { λ _ e. e ≡ NoMemory };

    fn from(_error: AllocFailed<T>) -> ImageError {
        ImageError::NoMemory
    }
}
