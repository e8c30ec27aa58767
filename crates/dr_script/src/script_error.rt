ghost use Rattle.std.specs.Prelude.{◌≡◌};
ghost use Rattle.dr_requests.specs.declared.command_error.CommandError.TheVariants.{NoMemory};
ghost use Rattle.dr_script.specs.declared.script_error.ScriptError.TheVariants as error;

use dr_answers::AnswerError;
use dr_ask::QueryError;
use dr_core::CoreError;
use dr_requests::CommandError;
use dr_time::TimeError;
use std::alloc::{AllocError, AllocFailed};

/// Why a command of a script changed nothing: the refusal of the layer that refused it.
#[derive(Debug, Drop)]
pub enum ScriptError {
    /// A refusal of a line: 0 `NoMemory`, or 101 `BadCommand`.
    Command(CommandError),
    /// Why a word is no instant: 10 or 11.
    Time(TimeError),
    /// A refusal of the core: 0, 59, 90 to 93, 95, or 101 where there is no job or snapshot of a number.
    Core(CoreError),
    /// Why a text is no query: 0 to 3, 11 to 13, 22, 60 to 62, or 70 to 77.
    Query(QueryError),
    /// Why a query has no answer: 0, or 81.
    Answer(AnswerError),
    /// 80: the system refused a thread to a query.
    WorkerNotStarted,
}

impl From<CommandError> for ScriptError {
    ghost from_gives = { λ e result. result ≡ error.Command e };

    fn from(error: CommandError) -> ScriptError {
        ScriptError::Command(error)
    }
}

impl From<TimeError> for ScriptError {
    ghost from_gives = { λ e result. result ≡ error.Time e };

    fn from(error: TimeError) -> ScriptError {
        ScriptError::Time(error)
    }
}

impl From<CoreError> for ScriptError {
    ghost from_gives = { λ e result. result ≡ error.Core e };

    fn from(error: CoreError) -> ScriptError {
        ScriptError::Core(error)
    }
}

impl From<QueryError> for ScriptError {
    ghost from_gives = { λ e result. result ≡ error.Query e };

    fn from(error: QueryError) -> ScriptError {
        ScriptError::Query(error)
    }
}

impl From<AnswerError> for ScriptError {
    ghost from_gives = { λ e result. result ≡ error.Answer e };

    fn from(error: AnswerError) -> ScriptError {
        ScriptError::Answer(error)
    }
}

impl From<AllocError> for ScriptError {
    ghost from_gives = { λ _ e. e ≡ error.Command NoMemory };

    fn from(_error: AllocError) -> ScriptError {
        ScriptError::Command(CommandError::NoMemory)
    }
}

impl<T: Drop> From<AllocFailed<T>> for ScriptError {
    ghost from_gives = { λ _ e. e ≡ error.Command NoMemory };

    fn from(_error: AllocFailed<T>) -> ScriptError {
        ScriptError::Command(CommandError::NoMemory)
    }
}
