ghost use Rattle.std.specs.Prelude.{◌≡◌, ℕ, List, length, map, IfOk, Some, slice_get, Contains, option_map};
ghost use Rattle.std.specs.Ordering.{nat_cmp};
ghost use Rattle.std.specs.Cmp.Lexicographic.{slice_cmp};
ghost use Rattle.std.specs.List.Sorted.{IsSorted};
ghost use Rattle.dr_dict.specs.Sorted.{IsSortedOf, IsRenumbering, SortedIsUnique};

use crate::growing_dict::GrowingDict;
use std::alloc::AllocError;
use std::marker::Model;

/// The texts of a growing dictionary in the order of their UTF-8 bytes, which it borrows. A contract sees the list.
#[derive(Drop)]
pub struct SortedDict<'a> {
    texts: Vec<&'a str>,
}

impl<'a> Model for SortedDict<'a> {
    ghost use Rattle.std.specs.Prelude.{ℕ, List, map};

    ghost Value = { List (List ℕ) };

    ghost view = { λ d. map (λ t. t.now) d.texts.items };
}

impl<'a> SortedDict<'a> {
    /// The texts of a dictionary, sorted. None is copied. The only error is that memory ran out. It takes n log n comparisons
    /// of texts.
    pub fn of(dict: &'a GrowingDict) -> Result<SortedDict<'a>, AllocError>
        ensures { IfOk result (IsSortedOf dict.now.texts) }
    {
        let mut texts = borrowed(dict)?;
        texts.sort_unstable();
        Ok(SortedDict { texts })
    }

    /// How many texts there are.
    pub fn len(&self) -> usize
        ensures { result ≡ length self.now }
    {
        self.texts.len()
    }

    /// The text at a place, from 0; none past the end.
    pub fn text(&self, place: usize) -> Option<&str>
        ensures { option_map (λ t. t.now) result ≡ slice_get self.now place }
    {
        match self.texts.get(place) {
            Some(text) => Some(*text),
            None => None,
        }
    }
}

fn borrowed<'a>(dict: &'a GrowingDict) -> Result<Vec<&'a str>, AllocError>
    ensures { IfOk result (λ texts. map (λ t. t.now) texts.items ≡ dict.now.texts) }
{
    let texts = dict.as_slice();
    let mut borrowed = Vec::with_capacity(dict.allocator(), texts.len())?;
    for text in texts {
        borrowed.push(text.as_str())?;
    }
    Ok(borrowed)
}

/// For each text of a dictionary, by its number, its place among the sorted texts. The only error is that memory ran out. It
/// takes n log n comparisons of texts.
pub fn renumbering(dict: &GrowingDict) -> Result<Vec<u32>, AllocError>
    ensures { IfOk result (λ places. (sorted : List (List ℕ)) → IsSortedOf dict.now.texts sorted → IsRenumbering dict.now.texts sorted places.items) }
{
    let sorted = SortedDict::of(dict)?;
    let mut places = Vec::with_capacity(dict.allocator(), dict.len())?;
    let texts = dict.as_slice();
    for text in texts {
        places.push(place_of(&sorted.texts, text.as_str()) as u32)?;
    }
    Ok(places)
}

fn place_of(sorted: &[&str], text: &str) -> usize
    requires rising { IsSorted (slice_cmp nat_cmp) (map (λ t. t.now) sorted.now) }
    requires there { Contains (map (λ t. t.now) sorted.now) text.now }
    ensures { slice_get (map (λ t. t.now) sorted.now) result ≡ Some text.now }
{
    match sorted.binary_search(&text) {
        Ok(place) => place,
        Err(place) => place,
    }
}

/// Law: distinct texts are sorted in one way.
pub fn sorted_is_unique()
    ensures { SortedIsUnique }
{}
