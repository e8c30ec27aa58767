ghost use Rattle.std.specs.Prelude.{◌≡◌};
ghost use Rattle.dr_load.specs.declared.load_error.LoadError.TheVariants as error;
ghost use Rattle.dr_load.specs.Refusal.{number_of, name_of, arg_of};

use crate::failure::Failure;
use dr_ask::QueryError;
use dr_base::Arg;
use dr_spec::SpecError;
use std::alloc::{AllocError, AllocFailed};

/// Why files weren't loaded.
#[derive(Debug, Drop)]
pub enum LoadError {
    /// 0: memory ran out.
    NoMemory,
    /// A refusal of the spec: 0 to 3, or 20 to 27.
    Spec(SpecError),
    /// A refusal of the query: 0 to 3, 11 to 13, 22, 60 to 62, or 70 to 77.
    Query(QueryError),
    /// 97: the query doesn't match, a scan among them.
    NotMatching,
    /// Spec and query were taken: 0, 80, 81, 90, 94 or 99.
    Failed(Failure),
}

impl LoadError {
    /// The number of the refusal: 0 to 3, 11 to 13, 20 to 27, 60 to 62, 70 to 77, 80, 81, 90, 94, 97 or 99.
    pub fn number(&self) -> u16
        ensures { result ≡ number_of self.now }
    {
        match self {
            LoadError::NoMemory => 0,
            LoadError::Spec(error) => error.number(),
            LoadError::Query(error) => error.number(),
            LoadError::NotMatching => 97,
            LoadError::Failed(error) => error.number(),
        }
    }

    /// The name of the refusal, as `NotMatching`.
    pub fn name(&self) -> &'static str
        ensures { result.now ≡ name_of self.now }
    {
        match self {
            LoadError::NoMemory => "NoMemory",
            LoadError::Spec(error) => error.name(),
            LoadError::Query(error) => error.name(),
            LoadError::NotMatching => "NotMatching",
            LoadError::Failed(error) => error.name(),
        }
    }

    /// What was refused, where the refusal carries it.
    pub fn arg(self) -> Option<Arg>
        ensures { result ≡ arg_of self }
    {
        match self {
            LoadError::Spec(error) => error.arg(),
            LoadError::Query(error) => error.arg(),
            _ => None,
        }
    }
}

impl From<SpecError> for LoadError {
    ghost from_gives = { λ e result. result ≡ error.Spec e };

    fn from(error: SpecError) -> LoadError {
        LoadError::Spec(error)
    }
}

impl From<QueryError> for LoadError {
    ghost from_gives = { λ e result. result ≡ error.Query e };

    fn from(error: QueryError) -> LoadError {
        LoadError::Query(error)
    }
}

impl From<Failure> for LoadError {
    ghost from_gives = { λ e result. result ≡ error.Failed e };

    fn from(error: Failure) -> LoadError {
        LoadError::Failed(error)
    }
}

impl From<AllocError> for LoadError {
    ghost from_gives = { λ _ e. e ≡ error.NoMemory };

    fn from(_error: AllocError) -> LoadError {
        LoadError::NoMemory
    }
}

impl<T: Drop> From<AllocFailed<T>> for LoadError {
    ghost from_gives = { λ _ e. e ≡ error.NoMemory };

    fn from(_error: AllocFailed<T>) -> LoadError {
        LoadError::NoMemory
    }
}
