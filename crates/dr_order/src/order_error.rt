ghost use Rattle.std.specs.Prelude.{◌≡◌};
ghost use Rattle.dr_base.specs.declared.base_error.BaseError.TheVariants.{NoMemory};
ghost use Rattle.dr_order.specs.declared.order_error.OrderError.TheVariants.{Base};
ghost use Rattle.dr_order.specs.Refusal.{number_of, name_of, arg_of};

use dr_base::{Arg, BaseError, Text};
use std::alloc::{AllocError, AllocFailed};
use thiserror::Error;

/// Why a `limitSpec` was refused.
#[derive(Debug, Drop, Error)]
pub enum OrderError {
    /// 0, 2 or 3: memory ran out, or a field is missing or of another kind.
    #[error(transparent)]
    Base(BaseError),
    /// 73: no output has this name.
    #[error("unknown column of an order {0}")]
    UnknownOrderColumn(Text),
    /// 76: a type, a direction, an order or a key that is not read.
    #[error("unsupported {0}")]
    Unsupported(Text),
}

impl OrderError {
    /// The number of the refusal: 0, 2, 3, 73 or 76.
    pub fn number(&self) -> u16
        ensures { result ≡ number_of self.now }
    {
        match self {
            OrderError::Base(error) => error.number(),
            OrderError::UnknownOrderColumn(_) => 73,
            OrderError::Unsupported(_) => 76,
        }
    }

    /// The name of the refusal, as `UnknownOrderColumn`.
    pub fn name(&self) -> &'static str
        ensures { result.now ≡ name_of self.now }
    {
        match self {
            OrderError::Base(error) => error.name(),
            OrderError::UnknownOrderColumn(_) => "UnknownOrderColumn",
            OrderError::Unsupported(_) => "Unsupported",
        }
    }

    /// The type, key or column that was refused, where the refusal carries one.
    pub fn arg(self) -> Option<Arg>
        ensures { result ≡ arg_of self }
    {
        match self {
            OrderError::Base(error) => error.arg(),
            OrderError::Unsupported(name) | OrderError::UnknownOrderColumn(name) => {
                Some(Arg::Name(name))
            }
        }
    }
}

impl From<BaseError> for OrderError {
    ghost from_gives = { λ e result. result ≡ Base e };

    fn from(error: BaseError) -> OrderError {
        OrderError::Base(error)
    }
}

impl From<AllocError> for OrderError {
    ghost from_gives = { λ _ e. e ≡ Base NoMemory };

    fn from(_error: AllocError) -> OrderError {
        OrderError::Base(BaseError::NoMemory)
    }
}

impl<T: Drop> From<AllocFailed<T>> for OrderError {
    ghost from_gives = { λ _ e. e ≡ Base NoMemory };

    fn from(_error: AllocFailed<T>) -> OrderError {
        OrderError::Base(BaseError::NoMemory)
    }
}
