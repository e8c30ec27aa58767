ghost use Rattle.std.specs.Prelude.{◌≡◌, ◌↔◌, ◌≤◌, [], None, length, take, IfOk, OnOk, OnErr, IsErrOf, bytes_eq, slice_get, Some, option_map};
ghost use Rattle.std.specs.List.{IsDistinct};
ghost use Rattle.dr_dict.specs.Dictionary.{number_in, with_text, with_texts};

use crate::dict_error::DictError;
use dr_base::Text;
use indexmap::IndexSet;
use std::alloc::{AllocError, Global};
use std::marker::Model;

/// Distinct texts, numbered from 0 in the order in which they were first added. A contract sees the list of the texts, and
/// how many there may be.
#[derive(Drop)]
pub struct GrowingDict {
    texts: IndexSet<Text>,
    limit: usize,
}

impl Model for GrowingDict {
    ghost use Rattle.std.specs.Prelude.{◌≤◌, length, bytes_eq};
    ghost use Rattle.std.specs.List.{IsDistinct};
    ghost use Rattle.dr_dict.specs.Dictionary.{Dictionary};

    ghost Value = { Dictionary };

    ghost view = { λ d. record { limit = d.limit; texts = d.texts.keys } };

    ghost invariant = { λ d. (length d.texts.keys ≤ d.limit) × (d.limit ≤ 16777216) × IsDistinct bytes_eq d.texts.keys };
}

impl GrowingDict {
    /// A dictionary without texts, which may have as many as `limit`. It takes no memory yet.
    pub fn new(alloc: Global, limit: usize) -> GrowingDict
        requires { limit ≤ 16777216 }
        ensures { result ≡ record { limit = limit; texts = [] } }
    {
        GrowingDict {
            texts: IndexSet::new(alloc),
            limit,
        }
    }

    /// How many texts there are.
    pub fn len(&self) -> usize
        ensures len { result ≡ length self.now.texts }
        ensures within { result ≤ self.now.limit }
        ensures few { result ≤ 16777216 }
        ensures distinct { IsDistinct bytes_eq self.now.texts }
    {
        self.texts.len()
    }

    /// The texts by their numbers.
    pub fn as_slice(&self) -> &[Text]
        ensures { result.now ≡ self.now.texts }
    {
        self.texts.as_slice()
    }

    /// The allocator that the dictionary was made with.
    pub fn allocator(&self) -> Global {
        *self.texts.allocator()
    }

    /// The number of a text; none where it isn't there. It takes no memory, and expected time by the bytes of the text.
    pub fn number_of(&self, text: &Text) -> Option<u32>
        ensures { result ≡ number_in self.now.texts text.now }
    {
        let place = self.texts.get_index_of(text)?;
        Some(place as u32)
    }

    /// The text of a number; none where there are not so many texts.
    pub fn text(&self, number: u32) -> Option<&str>
        ensures { option_map (λ t. t.now) result ≡ slice_get self.now.texts number }
    {
        match self.as_slice().get(number as usize) {
            Some(text) => Some(text.as_str()),
            None => None,
        }
    }

    /// Adds a text where it is new, and answers its number. An error leaves the dictionary as it was. Refusals: 40
    /// `DictFull` exactly where the text is new and there are as many texts as there may be. It takes expected time by the
    /// bytes of the text, which is hashed once; a text of more than 14 bytes is shared.
    pub fn add(&mut self, text: &Text) -> Result<u32, DictError>
        ensures number { IfOk result (λ n. number_in self.new.texts text.now ≡ Some n) }
        ensures ok { OnOk result (self.new ≡ with_texts self.old (with_text self.old.texts text.now)) }
        ensures err { OnErr result (self.new ≡ self.old) }
        ensures full { IsErrOf result DictError.DictFull ↔ ((number_in self.old.texts text.now ≡ None) × (self.old.limit ≤ length self.old.texts)) }
        ensures distinct { IsDistinct bytes_eq self.new.texts }
    {
        if self.texts.len() >= self.limit {
            return match self.number_of(text) {
                Some(number) => Ok(number),
                None => Err(DictError::DictFull),
            };
        }
        let (number, _) = self.texts.insert_full(text.copy()?)?;
        Ok(number as u32)
    }

    /// Forgets the texts from the number `len` on.
    pub fn truncate(&mut self, len: usize)
        ensures { self.new ≡ with_texts self.old (take len self.old.texts) }
    {
        self.texts.truncate(len);
    }

    /// An equal dictionary in memory of its own, but for texts of more than 14 bytes, which are shared. The only error is
    /// that memory ran out. It takes time by the texts.
    pub fn copy(&self) -> Result<GrowingDict, AllocError>
        ensures { IfOk result (λ dict. dict ≡ self.now) }
    {
        Ok(GrowingDict {
            texts: copy_all(&self.texts)?,
            limit: self.limit,
        })
    }
}

fn copy_all(texts: &IndexSet<Text>) -> Result<IndexSet<Text>, AllocError>
    requires { IsDistinct bytes_eq texts.now.keys }
    ensures { IfOk result (λ copies. copies.keys ≡ texts.now.keys) }
{
    let mut copies = IndexSet::with_capacity(*texts.allocator(), texts.len())?;
    for text in texts.as_slice() {
        copies.insert(text.copy()?)?;
    }
    Ok(copies)
}
