ghost use Rattle.std.specs.Prelude.{◌≡◌, ◌<◌, ◌++◌, [], false, length, List, ℕ, Some, IfOk, IfSome, IfNone, IsTrue, bytes_eq, slice_get};
ghost use Rattle.std.specs.List.{list_any, IsDistinct};

use dr_base::Text;
use indexmap::IndexSet;
use std::alloc::{AllocError, Global};
use std::marker::Model;

/// Distinct names, each found at a place where it is likely to stand, or else by hashing. A contract sees the list of them.
#[derive(Drop)]
pub struct Names(IndexSet<String>);

impl Model for Names {
    ghost use Rattle.std.specs.Prelude.{ℕ, List, map, string_bytes, bytes_eq};
    ghost use Rattle.std.specs.List.{IsDistinct};

    ghost Value = { List (List ℕ) };

    ghost view = { λ s. map string_bytes s.0.keys };

    ghost invariant = { λ s. IsDistinct bytes_eq (map string_bytes s.0.keys) };
}

impl Names {
    /// No name. It takes no memory yet.
    pub fn new(alloc: Global) -> Names
        ensures { result ≡ [] }
    {
        Names(IndexSet::new(alloc))
    }

    /// How many names there are.
    pub fn len(&self) -> usize
        ensures len { result ≡ length self.now }
        ensures distinct { IsDistinct bytes_eq self.now }
    {
        self.0.len()
    }

    /// Whether that name stands at that place.
    #[inline(always)]
    pub fn is_at(&self, place: usize, name: &str) -> bool
        ensures at { IsTrue result → slice_get self.now place ≡ Some name.now }
        ensures distinct { IsDistinct bytes_eq self.now }
    {
        match self.0.get_index(place) {
            Some(known) => known.as_str() == name,
            None => false,
        }
    }

    /// The place of a name, which likely is that one; none where it isn't there. It takes no memory, and constant time by the
    /// number of the names.
    pub fn place_of(&self, likely: usize, name: &str) -> Option<usize>
        ensures some { IfSome result (λ place. slice_get self.now place ≡ Some name.now) }
        ensures none { IfNone result (list_any (bytes_eq name.now) self.now ≡ false) }
        ensures distinct { IsDistinct bytes_eq self.now }
    {
        if self.is_at(likely, name) {
            return Some(likely);
        }
        self.0.get_index_of(name)
    }

    /// The place of a name, which likely is that one. A new name is put last, where there are fewer than `most`. The only
    /// error is that memory ran out.
    #[inline(always)]
    pub fn place_kept(
        &mut self,
        likely: usize,
        name: &str,
        most: usize,
    ) -> Result<Option<usize>, AllocError>
        ensures some { IfOk result (λ found. IfSome found (λ place. slice_get self.new place ≡ Some name.now)) }
        ensures none { IfOk result (λ found. IfNone found (list_any (bytes_eq name.now) self.new ≡ false)) }
        ensures kept { (more : List (List ℕ)) × (self.new ≡ self.old ++ more) }
    {
        if self.is_at(likely, name) {
            return Ok(Some(likely));
        }
        self.find_or_push(name, most)
    }

    #[inline(never)]
    fn find_or_push(&mut self, name: &str, most: usize) -> Result<Option<usize>, AllocError>
        ensures some { IfOk result (λ found. IfSome found (λ place. slice_get self.new place ≡ Some name.now)) }
        ensures none { IfOk result (λ found. IfNone found (list_any (bytes_eq name.now) self.new ≡ false)) }
        ensures kept { (more : List (List ℕ)) × (self.new ≡ self.old ++ more) }
    {
        match self.place_of(usize::MAX, name) {
            Some(place) => Ok(Some(place)),
            None => self.push_few(name, most),
        }
    }

    fn push_few(&mut self, name: &str, most: usize) -> Result<Option<usize>, AllocError>
        requires { list_any (bytes_eq name.now) self.old ≡ false }
        ensures some { IfOk result (λ found. IfSome found (λ place. slice_get self.new place ≡ Some name.now)) }
        ensures none { IfOk result (λ found. IfNone found (list_any (bytes_eq name.now) self.new ≡ false)) }
        ensures kept { (more : List (List ℕ)) × (self.new ≡ self.old ++ more) }
    {
        if self.len() < most {
            Ok(Some(self.push(name)?))
        } else {
            Ok(None)
        }
    }

    /// The place of a name, which likely is that one, and which is the last one where the name is new. The only error is that
    /// memory ran out.
    pub fn add(&mut self, likely: usize, name: &Text) -> Result<usize, AllocError>
        ensures place { IfOk result (λ place. slice_get self.new place ≡ Some name.now) }
        ensures kept { (more : List (List ℕ)) × (self.new ≡ self.old ++ more) }
    {
        match self.place_of(likely, name.as_str()) {
            Some(place) => Ok(place),
            None => self.push(name.as_str()),
        }
    }

    fn push(&mut self, name: &str) -> Result<usize, AllocError>
        requires { list_any (bytes_eq name.now) self.old ≡ false }
        ensures place { IfOk result (λ place. slice_get self.new place ≡ Some name.now) }
        ensures kept { (more : List (List ℕ)) × (self.new ≡ self.old ++ more) }
    {
        let place = self.0.len();
        let copy = String::from_str(*self.0.allocator(), name)?;
        self.0.insert(copy)?;
        Ok(place)
    }
}
