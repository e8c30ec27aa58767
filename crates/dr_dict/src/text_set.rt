ghost use Rattle.std.specs.Prelude.{◌≡◌, ◌∷◌, ◌++◌, [], Some, true, false, not, length, map, slice_get, string_bytes, take, IfOk, OnErr, bytes_eq};
ghost use Rattle.std.specs.List.{list_any};

use crate::text_places::TextPlaces;
use dr_base::Text;
use dr_slots::Sought;
use std::alloc::{AllocError, Global};
use std::marker::Model;

/// Distinct texts, each found by its hash. A contract sees the list of them, in the order in which they were added.
#[derive(Debug, Drop)]
pub struct TextSet {
    texts: Vec<String>,
    places: TextPlaces,
}

impl Model for TextSet {
    ghost use Rattle.std.specs.Prelude.{ℕ, List, map, string_bytes};
    ghost use Rattle.dr_dict.specs.TextPlaces.{AreFound};

    ghost Value = { List (List ℕ) };

    ghost view = { λ s. map string_bytes s.texts.items };

    ghost invariant = { λ s. AreFound s.places (map string_bytes s.texts.items) };
}

impl TextSet {
    /// No text. It takes no memory yet.
    pub fn new(alloc: Global) -> TextSet
        ensures { result ≡ [] }
    {
        TextSet {
            texts: Vec::new(alloc),
            places: TextPlaces::new(alloc),
        }
    }

    /// Adds a text behind the others where it is new, and answers whether it is. The only error is that memory ran out, and
    /// leaves the texts as they were. It takes time by the bytes of the text, mostly, and a logarithm of the texts more where the hashes
    /// of many are alike.
    pub fn add(&mut self, text: &Text) -> Result<bool, AllocError>
        ensures is_new { IfOk result (λ is_new. is_new ≡ not (list_any (bytes_eq text.now) self.old)) }
        ensures added { IfOk result (λ is_new. is_new ≡ true → self.new ≡ self.old ++ text.now ∷ []) }
        ensures same { IfOk result (λ is_new. is_new ≡ false → self.new ≡ self.old) }
        ensures err { OnErr result (self.new ≡ self.old) }
    {
        self.add_str(text.as_str())
    }

    // Adds a text, as `add` does.
    pub(crate) fn add_str(&mut self, text: &str) -> Result<bool, AllocError>
        ensures is_new { IfOk result (λ is_new. is_new ≡ not (list_any (bytes_eq text.now) self.old)) }
        ensures added { IfOk result (λ is_new. is_new ≡ true → self.new ≡ self.old ++ text.now ∷ []) }
        ensures same { IfOk result (λ is_new. is_new ≡ false → self.new ≡ self.old) }
        ensures err { OnErr result (self.new ≡ self.old) }
    {
        if self.contains(text) {
            return Ok(false);
        }
        let alloc = *self.texts.allocator();
        let copy = String::from_str(alloc, text)?;
        self.texts.reserve(1)?;
        self.places.put(alloc, text, self.texts.len())?;
        self.texts.push(copy).unwrap();
        Ok(true)
    }

    // No text, in memory from where these have theirs.
    pub(crate) fn none(&self) -> TextSet
        ensures { result ≡ [] }
    {
        TextSet::new(*self.texts.allocator())
    }

    // How many texts there are.
    pub(crate) fn count(&self) -> usize
        ensures { result ≡ length self.now }
    {
        self.texts.len()
    }

    // Lets all texts behind the first so many go.
    pub(crate) fn keep(&mut self, count: usize)
        ensures { self.new ≡ take count self.old }
    {
        self.texts.truncate(count);
    }

    /// The texts, in the order in which they were added. It takes constant time and no memory.
    pub fn as_texts(&self) -> &[String]
        ensures { map string_bytes result.now ≡ self.now }
    {
        self.texts.as_slice()
    }

    /// Whether the text is among them. It takes no memory, and the time of [`add`](TextSet::add).
    pub fn contains(&self, text: &str) -> bool
        ensures { result ≡ list_any (bytes_eq text.now) self.now }
    {
        let texts = self.texts.as_slice();
        self.places
            .find(text, &SoughtText { texts, text })
            .is_some()
    }
}

// A text that is looked for among others.
#[derive(Clone, Copy)]
struct SoughtText<'a> {
    texts: &'a [String],
    text: &'a str,
}

impl Sought for SoughtText<'_> {
    ghost stands = { λ s place. slice_get (map string_bytes s.texts.now) place ≡ Some s.text.now };

    #[inline]
    fn stands_at(&self, place: usize) -> bool {
        match self.texts.get(place) {
            Some(text) => text.as_str() == self.text,
            None => false,
        }
    }
}
