ghost use Rattle.std.specs.Prelude.{◌≡◌, IfOk};
ghost use Rattle.dr_ask.specs.Firsts.{is_same_aggregation, is_same_column, is_same_kind, kind_number};

use crate::column::Column;
use dr_agg::Kind;
use dr_base::Text;
use std::alloc::AllocError;

/// An aggregation of a query (Apache Druid documentation, native queries, aggregations): the name of its output, how
/// it combines, and the metric column that it reads. The column is absent where it counts rows, and where no metric of
/// the schema has the name that was asked for; such a column reads 0 in each row.
#[derive(Debug, Drop)]
pub struct Aggregation {
    pub name: Text,
    pub kind: Kind,
    pub column: Option<Column>,
}

impl Aggregation {
    // Whether it combines the same way, and reads the same column, or none like the other.
    pub(crate) fn is_same(&self, other: &Aggregation) -> bool
        ensures { result ≡ is_same_aggregation self.now other.now }
    {
        is_same_kind(self.kind, other.kind) && is_same_column(&self.column, &other.column)
    }

    // An equal aggregation.
    pub(crate) fn copy(&self) -> Result<Aggregation, AllocError>
        ensures { IfOk result (λ a. a ≡ self.now) }
    {
        Ok(Aggregation {
            name: self.name.copy()?,
            kind: self.kind,
            column: self.column,
        })
    }
}

fn is_same_column(column: &Option<Column>, other: &Option<Column>) -> bool
    ensures { result ≡ is_same_column column.now other.now }
{
    match (column, other) {
        (Some(column), Some(other)) => {
            column.place == other.place && is_same_kind(column.kind, other.kind)
        }
        (None, None) => true,
        _ => false,
    }
}

fn is_same_kind(kind: Kind, other: Kind) -> bool
    ensures { result ≡ is_same_kind kind other }
{
    kind_number(kind) == kind_number(other)
}

fn kind_number(kind: Kind) -> u8
    ensures { result ≡ kind_number kind }
{
    match kind {
        Kind::Count => 0,
        Kind::LongSum => 1,
        Kind::LongMin => 2,
        Kind::LongMax => 3,
    }
}
