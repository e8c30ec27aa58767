ghost use Rattle.std.specs.Prelude.{◌≡◌};
ghost use Rattle.dr_scatter.specs.declared.scatter_error.ScatterError.TheVariants.{NoMemory};
ghost use Rattle.dr_scatter.specs.Refusal.{number_of, name_of};

use std::alloc::{AllocError, AllocFailed};
use thiserror::Error;

/// Why several workers found nothing.
#[derive(Clone, Copy, Debug, PartialEq, Eq, Error)]
pub enum ScatterError {
    /// 0: memory ran out.
    #[error("out of memory")]
    NoMemory,
    /// 80: the system refused a thread.
    #[error("a worker was not started")]
    WorkerNotStarted,
}

impl ScatterError {
    /// The number of the refusal, 0 or 80.
    pub fn number(&self) -> u16
        ensures { result ≡ number_of self.now }
    {
        match self {
            ScatterError::NoMemory => 0,
            ScatterError::WorkerNotStarted => 80,
        }
    }

    /// The name of the refusal, as `WorkerNotStarted`.
    pub fn name(&self) -> &'static str
        ensures { result.now ≡ name_of self.now }
    {
        match self {
            ScatterError::NoMemory => "NoMemory",
            ScatterError::WorkerNotStarted => "WorkerNotStarted",
        }
    }
}

impl From<AllocError> for ScatterError {
    ghost from_gives = { λ _ e. e ≡ NoMemory };

    fn from(_error: AllocError) -> ScatterError {
        ScatterError::NoMemory
    }
}

impl<T: Drop> From<AllocFailed<T>> for ScatterError {
    ghost from_gives = { λ _ e. e ≡ NoMemory };

    fn from(_error: AllocFailed<T>) -> ScatterError {
        ScatterError::NoMemory
    }
}
