ghost use Rattle.std.specs.Prelude.{◌≡◌, ◌↔◌, IsTrue, length};

use dr_base::Row;
use std::marker::Model;

/// Rows in the order of their keys. A contract sees the list of the rows.
#[derive(Drop)]
pub struct Rows(Vec<Row>);

impl Model for Rows {
    ghost use Rattle.std.specs.Prelude.{List};
    ghost use Rattle.dr_base.specs.declared.row.Row.{Row};

    ghost Value = { List Row };

    ghost view = { λ r. r.0.items };
}

impl Rows {
    /// The rows of a list.
    pub fn from_vec(rows: Vec<Row>) -> Rows
        ensures { result ≡ rows.items }
    {
        Rows(rows)
    }

    /// The rows as a slice.
    pub fn as_slice(&self) -> &[Row]
        ensures { result.now ≡ self.now }
    {
        self.0.as_slice()
    }

    /// How many rows there are.
    pub fn len(&self) -> usize
        ensures { result ≡ length self.now }
    {
        self.0.len()
    }

    /// Whether the other rows are the same, in the same order. It takes no memory, and time by the rows up to the first that differs.
    pub fn equals(&self, other: &Rows) -> bool
        ensures { IsTrue result ↔ (self.now ≡ other.now) }
    {
        self.0 == other.0
    }
}
