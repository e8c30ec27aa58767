ghost use Rattle.std.specs.Prelude.{◌≡◌};
ghost use Rattle.dr_events.specs.declared.unparseable.Unparseable.TheVariants.{NoMemory};
ghost use Rattle.dr_events.specs.Refusal.{number_of, name_of, arg_of};

use dr_base::Arg;
use std::alloc::{AllocError, AllocFailed};
use thiserror::Error;

/// Why a line is no event.
#[derive(Debug, Drop, Error)]
pub enum Unparseable {
    /// 0: memory ran out.
    #[error("out of memory")]
    NoMemory,
    /// 30: the bytes are no JSON object.
    #[error("not a JSON object")]
    NotAnObject,
    /// 31: the time column is missing or null.
    #[error("no timestamp")]
    NoTimestamp,
    /// 32: the time column holds no time of the years 1 to 9999 in the spec's format.
    #[error("a bad timestamp")]
    BadTimestamp,
    /// 33: the field of the dimension at that place of the spec, from 0, holds neither a text nor a whole number nor a
    /// truth value.
    #[error("a bad value for dimension {0}")]
    BadDimension(usize),
    /// 34: the field of the metric at that place of the spec, from 0, holds no whole number of 64 bits with a sign.
    #[error("a bad value for metric {0}")]
    BadMetric(usize),
}

impl Unparseable {
    /// The number of the refusal, 0 or 30 to 34.
    pub fn number(&self) -> u16
        ensures { result ≡ number_of self.now }
    {
        match self {
            Unparseable::NoMemory => 0,
            Unparseable::NotAnObject => 30,
            Unparseable::NoTimestamp => 31,
            Unparseable::BadTimestamp => 32,
            Unparseable::BadDimension(_) => 33,
            Unparseable::BadMetric(_) => 34,
        }
    }

    /// The name of the refusal, as `NoTimestamp`.
    pub fn name(&self) -> &'static str
        ensures { result.now ≡ name_of self.now }
    {
        match self {
            Unparseable::NoMemory => "NoMemory",
            Unparseable::NotAnObject => "NotAnObject",
            Unparseable::NoTimestamp => "NoTimestamp",
            Unparseable::BadTimestamp => "BadTimestamp",
            Unparseable::BadDimension(_) => "BadDimension",
            Unparseable::BadMetric(_) => "BadMetric",
        }
    }

    /// The place of the column whose field is bad, from 0, where the refusal has one.
    pub fn arg(&self) -> Option<Arg>
        ensures { result ≡ arg_of self.now }
    {
        match self {
            Unparseable::BadDimension(place) | Unparseable::BadMetric(place) => {
                Some(Arg::Index(*place))
            }
            _ => None,
        }
    }
}

impl From<AllocError> for Unparseable {
    ghost from_gives = { λ _ e. e ≡ NoMemory };

    fn from(_error: AllocError) -> Unparseable {
        Unparseable::NoMemory
    }
}

impl<T: Drop> From<AllocFailed<T>> for Unparseable {
    ghost from_gives = { λ _ e. e ≡ NoMemory };

    fn from(_error: AllocFailed<T>) -> Unparseable {
        Unparseable::NoMemory
    }
}
