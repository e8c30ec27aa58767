ghost use Rattle.std.specs.Prelude.{◌≡◌};
ghost use Rattle.dr_answers.specs.declared.answer_error.AnswerError.TheVariants.{NoMemory};
ghost use Rattle.dr_answers.specs.AnswerRefusal.{number_of, name_of};

use std::alloc::{AllocError, AllocFailed};
use thiserror::Error;

/// Why a query got no answer.
#[derive(Clone, Copy, Debug, PartialEq, Eq, Error)]
pub enum AnswerError {
    /// 0: memory ran out.
    #[error("out of memory")]
    NoMemory,
    /// 81: the answer has over 100000 groups.
    #[error("the result is too large")]
    ResultTooLarge,
}

impl AnswerError {
    /// The number of the refusal, 0 or 81.
    pub fn number(&self) -> u16
        ensures { result ≡ number_of self.now }
    {
        match self {
            AnswerError::NoMemory => 0,
            AnswerError::ResultTooLarge => 81,
        }
    }

    /// The name of the refusal, as `ResultTooLarge`.
    pub fn name(&self) -> &'static str
        ensures { result.now ≡ name_of self.now }
    {
        match self {
            AnswerError::NoMemory => "NoMemory",
            AnswerError::ResultTooLarge => "ResultTooLarge",
        }
    }
}

impl From<AllocError> for AnswerError {
    ghost from_gives = { λ _ e. e ≡ NoMemory };

    fn from(_error: AllocError) -> AnswerError {
        AnswerError::NoMemory
    }
}

impl<T: Drop> From<AllocFailed<T>> for AnswerError {
    ghost from_gives = { λ _ e. e ≡ NoMemory };

    fn from(_error: AllocFailed<T>) -> AnswerError {
        AnswerError::NoMemory
    }
}
