ghost use Rattle.std.specs.Prelude.{◌≡◌, ℕ, List, IfOk};
ghost use Rattle.dr_predicate.specs.Match.{holds_of, value_at as value_at_of};

use crate::value_test::ValueTest;
use dr_base::Text;
use std::alloc::{AllocError, Global};

/// A test of one dimension: its place in the schema's list, from 0, and what is asked of its value. A column that the
/// schema lacks has no place, and the empty text as its value in each row.
#[derive(Drop)]
pub struct DimensionTest {
    pub place: Option<usize>,
    pub test: ValueTest,
}

impl DimensionTest {
    /// Whether a row with these dimension values passes. It takes no memory, and time as [`ValueTest::passes`].
    pub fn holds_of(&self, dims: &[Text]) -> bool
        ensures { result ≡ holds_of self.now dims.now }
    {
        self.test.passes(value_at(dims, self.place))
    }

    /// A test that holds of the same rows, in memory of its own. The only error is that memory ran out. It takes expected time and
    /// memory by the bytes of the test.
    pub fn copy(&self, alloc: Global) -> Result<DimensionTest, AllocError>
        ensures { IfOk result (λ t. (dims : List (List ℕ)) → holds_of t dims ≡ holds_of self.now dims) }
    {
        Ok(DimensionTest {
            place: self.place,
            test: self.test.copy(alloc)?,
        })
    }
}

/// The value at a place, the empty text where there is none. It takes constant time.
pub fn value_at(dims: &[Text], place: Option<usize>) -> &str
    ensures { result.now ≡ value_at_of place dims.now }
{
    let Some(place) = place else {
        return "";
    };
    match dims.get(place) {
        Some(value) => value.as_str(),
        None => "",
    }
}
