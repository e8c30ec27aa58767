ghost use Rattle.dr_ask.specs.TypeOf.{type_named};
ghost use Rattle.dr_ask.specs.Refusal.{Gives};

use crate::query_error::QueryError;
use dr_base::Text;
use std::alloc::Global;

/// The types of queries that are read.
#[derive(Clone, Copy, Debug, PartialEq, Eq)]
pub enum QueryType {
    Timeseries,
    GroupBy,
    Scan,
}

/// The type of that name. Refusals: 70 `UnknownQueryType` with another text.
pub fn type_named(alloc: Global, name: &str) -> Result<QueryType, QueryError>
    ensures { Gives (λ t. t) result (type_named name.now) }
{
    if name == "timeseries" {
        Ok(QueryType::Timeseries)
    } else if name == "groupBy" {
        Ok(QueryType::GroupBy)
    } else if name == "scan" {
        Ok(QueryType::Scan)
    } else {
        Err(QueryError::UnknownQueryType(Text::from_str(alloc, name)?))
    }
}
