ghost use Rattle.std.specs.Prelude.{◌≡◌};
ghost use Rattle.dr_order.specs.Order.{column_cmp, directed as directed_of};

use crate::output::Output;
use dr_outputs::{OutputNumbers, OutputTexts};
use std::cmp::Ordering;

/// A column that groups are ordered by.
#[derive(Clone, Copy, Debug, PartialEq, Eq)]
pub struct OrderColumn {
    pub output: Output,
    pub descending: bool,
}

impl OrderColumn {
    /// How two groups compare by this column: their dimension values and the values of their aggregations.
    pub(crate) fn order(
        self,
        dims: &OutputTexts<'_>,
        values: &OutputNumbers<'_>,
        other_dims: &OutputTexts<'_>,
        other_values: &OutputNumbers<'_>,
    ) -> Ordering
        ensures { result ≡ column_cmp self dims.now values.now other_dims.now other_values.now }
    {
        let order = match self.output {
            Output::Dimension(place) => dims.at(place).cmp(other_dims.at(place)),
            Output::Aggregation(place) => values.at(place).cmp(&other_values.at(place)),
        };
        directed(order, self.descending)
    }
}

fn directed(order: Ordering, descending: bool) -> Ordering
    ensures { result ≡ directed_of descending order }
{
    if descending { order.reverse() } else { order }
}
