ghost use Rattle.std.specs.Prelude.{◌≡◌};
ghost use Rattle.dr_order.specs.Deciding.{is_output};

/// An output of a groupBy, by its place among the dimensions or among the aggregations of the query, from 0.
#[derive(Clone, Copy, Debug, PartialEq, Eq, Hash)]
pub enum Output {
    Dimension(usize),
    Aggregation(usize),
}

impl Output {
    // Whether it is the same output.
    pub(crate) fn is_same(self, other: Output) -> bool
        ensures { result ≡ is_output self other }
    {
        match (self, other) {
            (Output::Dimension(place), Output::Dimension(other)) => place == other,
            (Output::Aggregation(place), Output::Aggregation(other)) => place == other,
            _ => false,
        }
    }
}
