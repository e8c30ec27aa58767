ghost use Rattle.std.specs.Prelude.{◌≡◌, IfOk, bytes_eq};
ghost use Rattle.std.specs.List.{position};
ghost use Rattle.std.specs.Ordering.{nat_cmp};
ghost use Rattle.std.specs.Cmp.Lexicographic.{slice_cmp};
ghost use Rattle.std.specs.BTreeMap.{get_by};
ghost use Rattle.dr_outputs.specs.Places.{AreFirst};

use dr_base::Text;
use std::alloc::{AllocError, Global};
use std::collections::BTreeMap;
use std::marker::Model;

/// The names of outputs of a query, each found in an ordered map. A contract sees the list of them.
#[derive(Drop)]
pub struct OutputNames<'n> {
    names: &'n [Text],
    // Where each name stands first.
    places: BTreeMap<&'n str, usize>,
}

impl<'n> Model for OutputNames<'n> {
    ghost use Rattle.std.specs.Prelude.{ℕ, List};
    ghost use Rattle.std.specs.Ordering.{nat_cmp};
    ghost use Rattle.std.specs.Cmp.Lexicographic.{slice_cmp};
    ghost use Rattle.std.specs.BTreeMap.{get_by};
    ghost use Rattle.dr_outputs.specs.Places.{AreFirst};

    ghost Value = { List (List ℕ) };

    ghost view = { λ o. o.names.now };

    ghost invariant = { λ o. AreFirst (λ name. get_by (λ k. slice_cmp nat_cmp name k.now) o.places) o.names.now };
}

impl<'n> OutputNames<'n> {
    /// These names, which it borrows. The only error is that memory ran out. It takes memory for a place of each name, and for each a
    /// logarithm of the names times its bytes.
    pub fn of(alloc: Global, names: &'n [Text]) -> Result<OutputNames<'n>, AllocError>
        ensures { IfOk result (λ o. o ≡ names.now) }
    {
        let places = first_places(alloc, names)?;
        Ok(OutputNames { names, places })
    }

    /// The place at which a name stands first, from 0; none where it isn't there. It takes no memory, and a logarithm of the names times
    /// the bytes of this one.
    pub fn place_of(&self, name: &str) -> Option<usize>
        ensures { result ≡ position (bytes_eq name.now) self.now }
    {
        self.places.get(name).copied()
    }
}

// Where each name stands first: the last name is put in first, so a name that stands twice ends with its first place.
fn first_places<'n>(
    alloc: Global,
    names: &'n [Text],
) -> Result<BTreeMap<&'n str, usize>, AllocError>
    ensures { IfOk result (λ places. AreFirst (λ name. get_by (λ k. slice_cmp nat_cmp name k.now) places) names.now) }
{
    let mut places = BTreeMap::new(alloc);
    let mut place = names.len();
    while place > 0 {
        place -= 1;
        places.insert(names[place].as_str(), place)?;
    }
    Ok(places)
}
