ghost use Rattle.std.specs.Prelude.{◌≡◌, ℕ, List, None, Some, IfSome, OnOk};
ghost use Rattle.std.specs.BTreeMap.{get_by_text};
ghost use Rattle.dr_dict.specs.TextPlaces.{text_hash, IsFoundAt};

use dr_slots::{Sought, Table};
use std::alloc::{AllocError, Global};
use std::collections::BTreeMap;
use std::hash::{BuildHasher, BuildHasherDefault, FoldHasher};

/// Where texts stand in a list, which is kept elsewhere. A text is looked for in a bounded number of slots by its hash; where it found
/// none of these empty, it stands in an ordered map. So a search takes logarithmic time at most, whatever the hashes are.
#[derive(Debug, Drop)]
pub struct TextPlaces {
    table: Table,
    far: BTreeMap<String, usize>,
}

impl TextPlaces {
    /// No text. It takes no memory yet.
    pub fn new(alloc: Global) -> TextPlaces {
        TextPlaces {
            table: Table::new(alloc),
            far: BTreeMap::new(alloc),
        }
    }

    /// The place of a text that is sought, where it is found. It takes no memory, and time by the bytes of the text, mostly; a logarithm
    /// of the texts more where the hashes of many are alike.
    #[inline]
    pub fn find<S: Sought>(&self, text: &str, sought: &S) -> Option<usize>
        ensures found { IfSome result (S.stands sought.now) }
        ensures none { result ≡ None → (place : ℕ) → IsFoundAt self.now text.now place → S.stands sought.now place → ⊥ }
    {
        match self.table.find(hash_of(text), sought) {
            Some(place) => Some(place),
            None => self.behind(text, sought),
        }
    }

    /// Adds the place of a text. Each other text is found where it was found before. The only error is that memory ran out. It takes the
    /// time of [`find`](TextPlaces::find), and memory by the bytes of a text that finds no slot.
    pub fn put(&mut self, alloc: Global, text: &str, place: usize) -> Result<(), AllocError>
        ensures put { OnOk result (IsFoundAt self.new text.now place) }
        ensures kept { (other : List ℕ) (at : ℕ) → (other ≡ text.now → ⊥) → IsFoundAt self.old other at → IsFoundAt self.new other at }
    {
        if self.table.put(hash_of(text), place)? {
            return Ok(());
        }
        self.far.insert(String::from_str(alloc, text)?, place)?;
        Ok(())
    }

    // The place of a text, by its order.
    fn behind<S: Sought>(&self, text: &str, sought: &S) -> Option<usize>
        ensures found { IfSome result (S.stands sought.now) }
        ensures none { result ≡ None → (place : ℕ) → get_by_text self.now.far text.now ≡ Some place → S.stands sought.now place → ⊥ }
    {
        if self.far.is_empty() {
            return None;
        }
        match self.far.get(text) {
            Some(place) if sought.stands_at(*place) => Some(*place),
            _ => None,
        }
    }
}

// The hash of a text, of which equal texts have the same.
#[inline]
fn hash_of(text: &str) -> u32
    ensures { result ≡ text_hash text.now }
{
    let hashers: BuildHasherDefault<FoldHasher> = BuildHasherDefault::new();
    (hashers.hash_one(text) >> 32) as u32
}
