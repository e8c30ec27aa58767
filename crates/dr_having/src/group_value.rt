ghost use Rattle.std.specs.Prelude.{◌≡◌};
ghost use Rattle.dr_having.specs.Placed.{place_in as place_in_of, value_placed};

use crate::comparison::Comparison;

/// A condition on the value of an aggregation: its place among the aggregations of the query, from 0, how it is compared,
/// and with which number.
#[derive(Debug, Drop)]
pub struct GroupValue {
    pub place: usize,
    pub comparison: Comparison,
    pub value: i64,
}

impl GroupValue {
    // The same condition on the output at another place.
    pub(crate) fn placed(&self, places: &[usize]) -> GroupValue
        ensures { result ≡ value_placed places.now self.now }
    {
        GroupValue {
            place: place_in(places, self.place),
            comparison: self.comparison,
            value: self.value,
        }
    }
}

// The place that an output is asked at.
fn place_in(places: &[usize], place: usize) -> usize
    ensures { result ≡ place_in_of places.now place }
{
    match places.get(place) {
        Some(other) => *other,
        None => place,
    }
}
