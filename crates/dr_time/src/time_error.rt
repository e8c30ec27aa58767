ghost use Rattle.std.specs.Prelude.{◌≡◌};
ghost use Rattle.dr_time.specs.Refusal.{number_of, name_of};

use thiserror::Error;

/// Why a text was refused as an instant or an interval.
#[derive(Clone, Copy, Debug, Error, PartialEq, Eq)]
pub enum TimeError {
    /// 10: the text is no instant of the grammar, or its day does not exist.
    #[error("not an instant")]
    BadInstant,
    /// 11: the instant lies before the year 1 or after the year 9999.
    #[error("an instant out of range")]
    OutOfRange,
    /// 12: the text is not two instants with a `/` between them.
    #[error("not an interval")]
    BadInterval,
    /// 13: the interval ends before it starts.
    #[error("an interval that ends before it starts")]
    EndBeforeStart,
}

impl TimeError {
    /// The number of the refusal, 10 to 13.
    pub fn number(self) -> u16
        ensures { result ≡ number_of self }
    {
        match self {
            TimeError::BadInstant => 10,
            TimeError::OutOfRange => 11,
            TimeError::BadInterval => 12,
            TimeError::EndBeforeStart => 13,
        }
    }

    /// The name of the refusal, as `BadInstant`.
    pub fn name(self) -> &'static str
        ensures { result.now ≡ name_of self }
    {
        match self {
            TimeError::BadInstant => "BadInstant",
            TimeError::OutOfRange => "OutOfRange",
            TimeError::BadInterval => "BadInterval",
            TimeError::EndBeforeStart => "EndBeforeStart",
        }
    }
}
