ghost use Rattle.std.specs.Prelude.{◌≡◌, IfOk};
ghost use Rattle.dr_ask.specs.Firsts.{is_same_dimension};

use dr_base::Text;
use std::alloc::AllocError;

/// A dimension that a groupBy groups by (Apache Druid documentation, native queries, dimension specs): the name of its
/// output, and its place in the schema's list, from 0. It has no place where the schema lacks it; its value is then the empty
/// text in each row.
#[derive(Debug, Drop)]
pub struct Dimension {
    pub name: Text,
    pub place: Option<usize>,
}

impl Dimension {
    // Whether it is the same column, or none like the other.
    pub(crate) fn is_same(&self, other: &Dimension) -> bool
        ensures { result ≡ is_same_dimension self.now other.now }
    {
        match (self.place, other.place) {
            (Some(place), Some(other)) => place == other,
            (None, None) => true,
            _ => false,
        }
    }

    // An equal dimension.
    pub(crate) fn copy(&self) -> Result<Dimension, AllocError>
        ensures { IfOk result (λ d. d ≡ self.now) }
    {
        Ok(Dimension {
            name: self.name.copy()?,
            place: self.place,
        })
    }
}
