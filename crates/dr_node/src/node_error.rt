ghost use Rattle.std.specs.Prelude.{◌≡◌};
ghost use Rattle.dr_node.specs.declared.node_error.NodeError.TheVariants as error;
ghost use Rattle.dr_node.specs.Refusal.{number_of, name_of};
ghost use Rattle.dr_timeline.specs.declared.timeline_error.TimelineError.TheVariants.{NoMemory};

use dr_timeline::{MergeError, TimelineError};
use std::alloc::{AllocError, AllocFailed};
use thiserror::Error;

/// Why a call of a node changed nothing.
#[derive(Clone, Copy, Debug, PartialEq, Eq, Error)]
pub enum NodeError {
    /// A refusal of the timeline: 0, 90 to 93, or 95.
    #[error(transparent)]
    Timeline(TimelineError),
    /// A refusal of the work of a job: 0 or 59.
    #[error(transparent)]
    Merge(MergeError),
    /// 94: the seats that a node was closed with aren't all its seats, each once, or the events of a seat aren't those of the
    /// stream with its mark.
    #[error("the seats do not show the history of the stream")]
    HistoryMismatch,
}

impl NodeError {
    /// The number of the refusal: 0, 59, or 90 to 95.
    pub fn number(&self) -> u16
        ensures { result ≡ number_of self.now }
    {
        match self {
            NodeError::Timeline(error) => error.number(),
            NodeError::Merge(error) => error.number(),
            NodeError::HistoryMismatch => 94,
        }
    }

    /// The name of the refusal, as `StreamFull`.
    pub fn name(&self) -> &'static str
        ensures { result.now ≡ name_of self.now }
    {
        match self {
            NodeError::Timeline(error) => error.name(),
            NodeError::Merge(error) => error.name(),
            NodeError::HistoryMismatch => "HistoryMismatch",
        }
    }
}

impl From<TimelineError> for NodeError {
    ghost from_gives = { λ e result. result ≡ error.Timeline e };

    fn from(error: TimelineError) -> NodeError {
        NodeError::Timeline(error)
    }
}

impl From<MergeError> for NodeError {
    ghost from_gives = { λ e result. result ≡ error.Merge e };

    fn from(error: MergeError) -> NodeError {
        NodeError::Merge(error)
    }
}

impl From<AllocError> for NodeError {
    ghost from_gives = { λ _ e. e ≡ error.Timeline NoMemory };

    fn from(_error: AllocError) -> NodeError {
        NodeError::Timeline(TimelineError::NoMemory)
    }
}

impl<T: Drop> From<AllocFailed<T>> for NodeError {
    ghost from_gives = { λ _ e. e ≡ error.Timeline NoMemory };

    fn from(_error: AllocFailed<T>) -> NodeError {
        NodeError::Timeline(TimelineError::NoMemory)
    }
}
