ghost use Rattle.std.specs.Prelude.{◌≡◌};
ghost use Rattle.dr_lines.specs.Refusal.{number_of, name_of};

use thiserror::Error;

/// Why a line could not be read or written.
#[derive(Clone, Copy, Debug, PartialEq, Eq, Error)]
pub enum LineError {
    /// 98: the line has more than 1048576 bytes.
    #[error("the line is too long")]
    LineTooLong,
    /// 99: a read failed, or there were 2^32 reads.
    #[error("a read failed")]
    ReadFault,
    /// 100: a write failed.
    #[error("a write failed")]
    WriteFault,
}

impl LineError {
    /// The number of the refusal, 98 to 100.
    pub fn number(self) -> u16
        ensures { result ≡ number_of self }
    {
        match self {
            LineError::LineTooLong => 98,
            LineError::ReadFault => 99,
            LineError::WriteFault => 100,
        }
    }

    /// The name of the refusal, as `LineTooLong`.
    pub fn name(self) -> &'static str
        ensures { result.now ≡ name_of self }
    {
        match self {
            LineError::LineTooLong => "LineTooLong",
            LineError::ReadFault => "ReadFault",
            LineError::WriteFault => "WriteFault",
        }
    }
}
