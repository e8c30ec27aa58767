ghost use Rattle.std.specs.Prelude.{◌≡◌};
ghost use Rattle.dr_base.specs.declared.base_error.BaseError.TheVariants.{NoMemory};
ghost use Rattle.dr_ask.specs.declared.query_error.QueryError.TheVariants.{Base, Gran, Filter, Having, Order};
ghost use Rattle.dr_ask.specs.Refusal.{number_of, name_of, arg_of, of_intervals};

use dr_base::{Arg, BaseError, Text};
use dr_filter::FilterError;
use dr_gran::GranError;
use dr_having::HavingError;
use dr_intervals::IntervalsError;
use dr_order::OrderError;
use dr_time::TimeError;
use std::alloc::{AllocError, AllocFailed};
use thiserror::Error;

/// Why a query was refused.
#[derive(Debug, Drop, Error)]
pub enum QueryError {
    /// 0 to 3: memory ran out, the text is no JSON, or a field is missing or of another kind.
    #[error(transparent)]
    Base(BaseError),
    /// 11 to 13: a text is no interval.
    #[error(transparent)]
    Time(TimeError),
    /// 0 or 22: a value is no granularity.
    #[error(transparent)]
    Gran(GranError),
    /// 0, 2, 3, 11 to 13, 60 to 62: the filter was refused.
    #[error(transparent)]
    Filter(FilterError),
    /// 0, 2, 3, 62, 76, 77: the `having` was refused.
    #[error(transparent)]
    Having(HavingError),
    /// 0, 2, 3, 73, 76: the `limitSpec` was refused.
    #[error(transparent)]
    Order(OrderError),
    /// 70: no query has this type.
    #[error("unknown type of query {0}")]
    UnknownQueryType(Text),
    /// 71: the query asks another data source.
    #[error("another data source {0}")]
    WrongDataSource(Text),
    /// 72: two outputs have this name.
    #[error("duplicate output {0}")]
    DuplicateOutput(Text),
    /// 74: an aggregation reads a dimension, or `__time`.
    #[error("{0} is a dimension")]
    FieldIsDimension(Text),
    /// 75: a groupBy groups by a metric, or by `__time`.
    #[error("{0} is a metric")]
    DimensionIsMetric(Text),
    /// 76: a type, a field or a kind of value that is not read.
    #[error("unsupported {0}")]
    Unsupported(Text),
}

impl QueryError {
    /// The number of the refusal: 0 to 3, 11 to 13, 22, 60 to 62, or 70 to 77.
    pub fn number(&self) -> u16
        ensures { result ≡ number_of self.now }
    {
        match self {
            QueryError::Base(error) => error.number(),
            QueryError::Time(error) => error.number(),
            QueryError::Gran(error) => error.number(),
            QueryError::Filter(error) => error.number(),
            QueryError::Having(error) => error.number(),
            QueryError::Order(error) => error.number(),
            QueryError::UnknownQueryType(_) => 70,
            QueryError::WrongDataSource(_) => 71,
            QueryError::DuplicateOutput(_) => 72,
            QueryError::FieldIsDimension(_) => 74,
            QueryError::DimensionIsMetric(_) => 75,
            QueryError::Unsupported(_) => 76,
        }
    }

    /// The name of the refusal, as `WrongDataSource`.
    pub fn name(&self) -> &'static str
        ensures { result.now ≡ name_of self.now }
    {
        match self {
            QueryError::Base(error) => error.name(),
            QueryError::Time(error) => error.name(),
            QueryError::Gran(error) => error.name(),
            QueryError::Filter(error) => error.name(),
            QueryError::Having(error) => error.name(),
            QueryError::Order(error) => error.name(),
            QueryError::UnknownQueryType(_) => "UnknownQueryType",
            QueryError::WrongDataSource(_) => "WrongDataSource",
            QueryError::DuplicateOutput(_) => "DuplicateOutput",
            QueryError::FieldIsDimension(_) => "FieldIsDimension",
            QueryError::DimensionIsMetric(_) => "DimensionIsMetric",
            QueryError::Unsupported(_) => "Unsupported",
        }
    }

    /// The type, field or name that was refused, where the refusal carries one.
    pub fn arg(self) -> Option<Arg>
        ensures { result ≡ arg_of self }
    {
        match self {
            QueryError::Base(error) => error.arg(),
            QueryError::Time(_) => None,
            QueryError::Gran(error) => error.arg(),
            QueryError::Filter(error) => error.arg(),
            QueryError::Having(error) => error.arg(),
            QueryError::Order(error) => error.arg(),
            QueryError::UnknownQueryType(name)
            | QueryError::WrongDataSource(name)
            | QueryError::DuplicateOutput(name)
            | QueryError::FieldIsDimension(name)
            | QueryError::DimensionIsMetric(name)
            | QueryError::Unsupported(name) => Some(Arg::Name(name)),
        }
    }
}

impl From<BaseError> for QueryError {
    ghost from_gives = { λ e result. result ≡ Base e };

    fn from(error: BaseError) -> QueryError {
        QueryError::Base(error)
    }
}

impl From<IntervalsError> for QueryError {
    ghost from_gives = { λ e result. result ≡ of_intervals e };

    fn from(error: IntervalsError) -> QueryError {
        match error {
            IntervalsError::Base(error) => QueryError::Base(error),
            IntervalsError::Time(error) => QueryError::Time(error),
            IntervalsError::Unread(name) => QueryError::Unsupported(name),
        }
    }
}

impl From<GranError> for QueryError {
    ghost from_gives = { λ e result. result ≡ Gran e };

    fn from(error: GranError) -> QueryError {
        QueryError::Gran(error)
    }
}

impl From<FilterError> for QueryError {
    ghost from_gives = { λ e result. result ≡ Filter e };

    fn from(error: FilterError) -> QueryError {
        QueryError::Filter(error)
    }
}

impl From<HavingError> for QueryError {
    ghost from_gives = { λ e result. result ≡ Having e };

    fn from(error: HavingError) -> QueryError {
        QueryError::Having(error)
    }
}

impl From<OrderError> for QueryError {
    ghost from_gives = { λ e result. result ≡ Order e };

    fn from(error: OrderError) -> QueryError {
        QueryError::Order(error)
    }
}

impl From<AllocError> for QueryError {
    ghost from_gives = { λ _ e. e ≡ Base NoMemory };

    fn from(_error: AllocError) -> QueryError {
        QueryError::Base(BaseError::NoMemory)
    }
}

impl<T: Drop> From<AllocFailed<T>> for QueryError {
    ghost from_gives = { λ _ e. e ≡ Base NoMemory };

    fn from(_error: AllocFailed<T>) -> QueryError {
        QueryError::Base(BaseError::NoMemory)
    }
}
