ghost use Rattle.std.specs.Prelude.{◌≡◌, None};
ghost use Rattle.dr_requests.specs.declared.command_error.CommandError.TheVariants.{NoMemory, Line};
ghost use Rattle.dr_requests.specs.Refusal.{number_of, name_of};
ghost use Rattle.dr_base.specs.FaultLine.{fault_line};

use dr_lines::LineError;
use std::alloc::{AllocError, AllocFailed};
use thiserror::Error;

/// Why a line of a script was refused before its command was carried out.
#[derive(Clone, Copy, Debug, PartialEq, Eq, Error)]
pub enum CommandError {
    /// 0: memory ran out.
    #[error("out of memory")]
    NoMemory,
    /// A line that could not be read or written: 98 to 100.
    #[error(transparent)]
    Line(LineError),
    /// 101: the line fits no command, or names no job or snapshot.
    #[error("no such command")]
    BadCommand,
}

impl CommandError {
    /// The number of the refusal: 0, 98 to 100, or 101.
    pub fn number(self) -> u16
        ensures { result ≡ number_of self }
    {
        match self {
            CommandError::NoMemory => 0,
            CommandError::Line(error) => error.number(),
            CommandError::BadCommand => 101,
        }
    }

    /// The name of the refusal, as `BadCommand`.
    pub fn name(self) -> &'static str
        ensures { result.now ≡ name_of self }
    {
        match self {
            CommandError::NoMemory => "NoMemory",
            CommandError::Line(error) => error.name(),
            CommandError::BadCommand => "BadCommand",
        }
    }

    /// The line of the refusal: `refused NUMBER NAME`.
    pub fn line(self) -> &'static str
        ensures { result.now ≡ fault_line (number_of self) (name_of self) None }
    {
        match self {
            CommandError::NoMemory => "refused 0 NoMemory",
            CommandError::Line(error) => refused_line(error),
            CommandError::BadCommand => "refused 101 BadCommand",
        }
    }
}

// The line of a refusal of the layer below.
fn refused_line(error: LineError) -> &'static str
    ensures { result.now ≡ fault_line (number_of (Line error)) (name_of (Line error)) None }
{
    match error {
        LineError::LineTooLong => "refused 98 LineTooLong",
        LineError::ReadFault => "refused 99 ReadFault",
        LineError::WriteFault => "refused 100 WriteFault",
    }
}

impl From<AllocError> for CommandError {
    ghost from_gives = { λ _ e. e ≡ NoMemory };

    fn from(_error: AllocError) -> CommandError {
        CommandError::NoMemory
    }
}

impl<T: Drop> From<AllocFailed<T>> for CommandError {
    ghost from_gives = { λ _ e. e ≡ NoMemory };

    fn from(_error: AllocFailed<T>) -> CommandError {
        CommandError::NoMemory
    }
}
