ghost use Rattle.std.specs.Prelude.{◌≡◌};
ghost use Rattle.dr_answers.specs.declared.answer_error.AnswerError.TheVariants.{NoMemory};
ghost use Rattle.dr_timeline.specs.declared.ask_error.AskError.TheVariants as error;
ghost use Rattle.dr_timeline.specs.AskRefusal.{number_of, name_of, scattered};

use dr_answers::AnswerError;
use dr_scatter::ScatterError;
use std::alloc::AllocError;
use thiserror::Error;

/// Why a query got no answer from several workers.
#[derive(Clone, Copy, Debug, PartialEq, Eq, Error)]
pub enum AskError {
    /// 0 or 81: what one worker would have met.
    #[error(transparent)]
    Answer(AnswerError),
    /// 80: the system refused a thread.
    #[error("a worker was not started")]
    WorkerNotStarted,
}

impl AskError {
    /// The number of the refusal: 0, 80 or 81.
    pub fn number(&self) -> u16
        ensures { result ≡ number_of self.now }
    {
        match self {
            AskError::Answer(error) => error.number(),
            AskError::WorkerNotStarted => 80,
        }
    }

    /// The name of the refusal, as `WorkerNotStarted`.
    pub fn name(&self) -> &'static str
        ensures { result.now ≡ name_of self.now }
    {
        match self {
            AskError::Answer(error) => error.name(),
            AskError::WorkerNotStarted => "WorkerNotStarted",
        }
    }
}

impl From<AnswerError> for AskError {
    ghost from_gives = { λ e result. result ≡ error.Answer e };

    fn from(error: AnswerError) -> AskError {
        AskError::Answer(error)
    }
}

impl From<ScatterError> for AskError {
    ghost from_gives = { λ e result. result ≡ scattered e };

    fn from(error: ScatterError) -> AskError {
        match error {
            ScatterError::NoMemory => AskError::Answer(AnswerError::NoMemory),
            ScatterError::WorkerNotStarted => AskError::WorkerNotStarted,
        }
    }
}

impl From<AllocError> for AskError {
    ghost from_gives = { λ _ e. e ≡ error.Answer NoMemory };

    fn from(_error: AllocError) -> AskError {
        AskError::Answer(AnswerError::NoMemory)
    }
}
