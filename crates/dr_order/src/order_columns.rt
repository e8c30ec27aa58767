ghost use Rattle.std.specs.Prelude.{◌≡◌, ◌++◌, ◌∷◌, [], true, OnOk, OnErr, IsTrue};
ghost use Rattle.std.specs.List.{list_any};
ghost use Rattle.dr_order.specs.Deciding.{is_output};
ghost use Rattle.dr_order.specs.Order.{columns_cmp};

use crate::order_column::OrderColumn;
use crate::output::Output;
use dr_outputs::{OutputNumbers, OutputTexts};
use indexmap::IndexMap;
use std::alloc::{AllocError, Global};
use std::cmp::Ordering;
use std::marker::Model;

/// The columns that groups are ordered by, the first of them first. A contract sees the list of them.
#[derive(Debug, Drop)]
pub struct OrderColumns {
    columns: Vec<OrderColumn>,
    // Those whose output didn't stand before, which alone decide.
    deciding: Vec<OrderColumn>,
    // At which place among these the one of each output likely stands.
    places: IndexMap<Output, usize>,
}

impl Model for OrderColumns {
    ghost use Rattle.std.specs.Prelude.{List};
    ghost use Rattle.dr_order.specs.declared.order_column.OrderColumn.{OrderColumn};

    ghost Value = { List OrderColumn };

    ghost use Rattle.dr_order.specs.Deciding.{Decides};

    ghost view = { λ c. c.columns.items };

    ghost invariant = { λ c. Decides c.deciding.items c.columns.items };
}

impl OrderColumns {
    /// No column. It takes no memory.
    pub fn new(alloc: Global) -> OrderColumns
        ensures { result ≡ [] }
    {
        OrderColumns {
            columns: Vec::new(alloc),
            deciding: Vec::new(alloc),
            places: IndexMap::new(alloc),
        }
    }

    /// The columns as a slice.
    pub fn as_slice(&self) -> &[OrderColumn]
        ensures { result.now ≡ self.now }
    {
        self.columns.as_slice()
    }

    /// Adds a column behind the others. The only error is that memory ran out. It takes constant expected time.
    pub fn push(&mut self, column: OrderColumn) -> Result<(), AllocError>
        ensures ok { OnOk result (self.new ≡ self.old ++ column ∷ []) }
        ensures err { OnErr result (self.new ≡ self.old) }
    {
        let last = self.deciding.len();
        let likely = *self.places.entry(column.output)?.or_insert(last);
        let decides = !stands_at(self.deciding.as_slice(), likely, column.output);
        self.deciding.reserve(1)?;
        self.columns.push(column)?;
        if decides {
            self.deciding.push(column).unwrap();
        }
        Ok(())
    }

    /// How two groups of one bucket compare by the columns. Of each group there are the dimension values and the values of the
    /// aggregations, in the order of the query. It takes no memory, and time by the outputs among the columns, each of which is
    /// compared once, and the bytes of the values.
    pub fn order(
        &self,
        dims: &OutputTexts<'_>,
        values: &OutputNumbers<'_>,
        other_dims: &OutputTexts<'_>,
        other_values: &OutputNumbers<'_>,
    ) -> Ordering
        ensures { result ≡ columns_cmp self.now dims.now values.now other_dims.now other_values.now }
    {
        by_columns(
            self.deciding.as_slice(),
            dims,
            values,
            other_dims,
            other_values,
        )
    }
}

// Whether a column of this output stands at a place among some.
fn stands_at(columns: &[OrderColumn], place: usize, output: Output) -> bool
    ensures { IsTrue result → list_any (λ c. is_output c.output output) columns.now ≡ true }
{
    match columns.get(place) {
        Some(column) => column.output.is_same(output),
        None => false,
    }
}

fn by_columns(
    columns: &[OrderColumn],
    dims: &OutputTexts<'_>,
    values: &OutputNumbers<'_>,
    other_dims: &OutputTexts<'_>,
    other_values: &OutputNumbers<'_>,
) -> Ordering
    ensures { result ≡ columns_cmp columns.now dims.now values.now other_dims.now other_values.now }
{
    for column in columns {
        let order = column.order(dims, values, other_dims, other_values);
        if order != Ordering::Equal {
            return order;
        }
    }
    Ordering::Equal
}
