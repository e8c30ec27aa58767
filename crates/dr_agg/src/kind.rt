ghost use Rattle.std.specs.Prelude.{◌≡◌};
ghost use Rattle.dr_agg.specs.Combination.{combine_of, unit_of, matches_column};

use crate::combine::{Combine, Max, Min, Sum};

/// How the values of a metric column are combined, and what an aggregation of a query computes (Apache Druid
/// documentation, aggregations).
#[derive(Clone, Copy, Debug, PartialEq, Eq)]
pub enum Kind {
    /// The number of rows. As a column it is the number of events that were combined.
    Count,
    /// The sum modulo 2^64, read as a number with a sign.
    LongSum,
    /// The least value.
    LongMin,
    /// The greatest value.
    LongMax,
}

impl Kind {
    /// Two values of a column of this kind, combined: the sum modulo 2^64 for `Count` and `LongSum`, the lesser for
    /// `LongMin`, the greater for `LongMax`.
    pub fn combine(self, a: i64, b: i64) -> i64
        ensures { result ≡ combine_of self a b }
    {
        match self {
            Kind::Count | Kind::LongSum => Sum::combine(a, b),
            Kind::LongMin => Min::combine(a, b),
            Kind::LongMax => Max::combine(a, b),
        }
    }

    /// What no value at all combines to: 0, 9223372036854775807 for `LongMin`, -9223372036854775808 for `LongMax`.
    pub fn unit(self) -> i64
        ensures { result ≡ unit_of self }
    {
        match self {
            Kind::Count | Kind::LongSum => Sum::unit(),
            Kind::LongMin => Min::unit(),
            Kind::LongMax => Max::unit(),
        }
    }
}

/// Whether an aggregation of a query computes, over the combined values of a column, what it computes over the values
/// themselves: `LongSum` over a `LongSum` or `Count` column, `LongMin` over `LongMin`, `LongMax` over `LongMax`. A query's
/// `Count` counts rows, and so matches no column.
pub fn matches(query: Kind, column: Kind) -> bool
    ensures { result ≡ matches_column query column }
{
    match (query, column) {
        (Kind::LongSum, Kind::LongSum | Kind::Count) => true,
        (Kind::LongMin, Kind::LongMin) => true,
        (Kind::LongMax, Kind::LongMax) => true,
        _ => false,
    }
}
