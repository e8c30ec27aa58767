ghost use Rattle.std.specs.Prelude.{◌≡◌};
ghost use Rattle.dr_gran.specs.declared.gran_error.GranError.TheVariants.{NoMemory};
ghost use Rattle.dr_gran.specs.Refusal.{number_of, name_of, arg_of};

use dr_base::{Arg, Text};
use std::alloc::AllocError;
use thiserror::Error;

/// Why a value was refused as a granularity.
#[derive(Debug, Drop, Error)]
pub enum GranError {
    /// 0: memory ran out.
    #[error("out of memory")]
    NoMemory,
    /// 22: the value is no granularity. With its text, or the text of its `type`, or `granularity` where there is neither.
    #[error("unsupported granularity {0}")]
    UnsupportedGranularity(Text),
}

impl GranError {
    /// The number of the refusal, 0 or 22.
    pub fn number(&self) -> u16
        ensures { result ≡ number_of self.now }
    {
        match self {
            GranError::NoMemory => 0,
            GranError::UnsupportedGranularity(_) => 22,
        }
    }

    /// The name of the refusal, as `UnsupportedGranularity`.
    pub fn name(&self) -> &'static str
        ensures { result.now ≡ name_of self.now }
    {
        match self {
            GranError::NoMemory => "NoMemory",
            GranError::UnsupportedGranularity(_) => "UnsupportedGranularity",
        }
    }

    /// The text that was refused, where the refusal carries one.
    pub fn arg(self) -> Option<Arg>
        ensures { result ≡ arg_of self }
    {
        match self {
            GranError::NoMemory => None,
            GranError::UnsupportedGranularity(name) => Some(Arg::Name(name)),
        }
    }
}

impl From<AllocError> for GranError {
    ghost from_gives = { λ _ e. e ≡ NoMemory };

    fn from(_error: AllocError) -> GranError {
        GranError::NoMemory
    }
}
