ghost use Rattle.std.specs.Prelude.{◌≡◌};
ghost use Rattle.dr_load.specs.declared.failure.Failure.TheVariants as failure;
ghost use Rattle.dr_load.specs.FailureRefusal.{IsOfNode, number_of, name_of};
ghost use Rattle.dr_node.specs.Refusal as node;
ghost use Rattle.dr_timeline.specs.declared.ask_error.AskError.TheVariants as ask;

use dr_answers::AnswerError;
use dr_node::NodeError;
use dr_timeline::AskError;
use std::alloc::{AllocError, AllocFailed};

/// Why files whose spec and query were taken weren't loaded.
#[derive(Debug, Drop)]
pub enum Failure {
    /// 0: memory ran out.
    NoMemory,
    /// 80: the system started no thread for a file.
    WorkerNotStarted,
    /// 90: as many events are retained as the spec allows.
    StreamFull,
    /// 94: the seats of the node don't show the history of its stream.
    HistoryMismatch,
    /// 99: a read of a file failed, or 2^32 reads were made.
    ReadFault,
    /// A refusal of the last answer: 0, 80 where the system started no thread for a worker, or 81.
    Answer(AskError),
}

impl Failure {
    /// The number of the refusal: 0, 80, 81, 90, 94 or 99.
    pub fn number(&self) -> u16
        ensures { result ≡ number_of self.now }
    {
        match self {
            Failure::NoMemory => 0,
            Failure::WorkerNotStarted => 80,
            Failure::StreamFull => 90,
            Failure::HistoryMismatch => 94,
            Failure::ReadFault => 99,
            Failure::Answer(error) => error.number(),
        }
    }

    /// The name of the refusal, as `StreamFull`.
    pub fn name(&self) -> &'static str
        ensures { result.now ≡ name_of self.now }
    {
        match self {
            Failure::NoMemory => "NoMemory",
            Failure::WorkerNotStarted => "WorkerNotStarted",
            Failure::StreamFull => "StreamFull",
            Failure::HistoryMismatch => "HistoryMismatch",
            Failure::ReadFault => "ReadFault",
            Failure::Answer(error) => error.name(),
        }
    }

    /// What a node refuses where it accepts an event or is closed.
    pub(crate) fn of_node(error: NodeError) -> Failure
        requires { IsOfNode error }
        ensures { number_of result ≡ node.number_of error }
    {
        match error.number() {
            90 => Failure::StreamFull,
            94 => Failure::HistoryMismatch,
            _ => Failure::NoMemory,
        }
    }
}

impl From<AskError> for Failure {
    ghost from_gives = { λ e result. result ≡ failure.Answer e };

    fn from(error: AskError) -> Failure {
        Failure::Answer(error)
    }
}

impl From<AnswerError> for Failure {
    ghost from_gives = { λ e result. result ≡ failure.Answer (ask.Answer e) };

    fn from(error: AnswerError) -> Failure {
        Failure::Answer(AskError::Answer(error))
    }
}

impl From<AllocError> for Failure {
    ghost from_gives = { λ _ e. e ≡ failure.NoMemory };

    fn from(_error: AllocError) -> Failure {
        Failure::NoMemory
    }
}

impl<T: Drop> From<AllocFailed<T>> for Failure {
    ghost from_gives = { λ _ e. e ≡ failure.NoMemory };

    fn from(_error: AllocFailed<T>) -> Failure {
        Failure::NoMemory
    }
}
