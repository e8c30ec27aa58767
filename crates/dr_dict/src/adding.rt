ghost use Rattle.std.specs.Prelude.{◌≡◌, ◌||◌, ◌&&◌, ℕ, List, length, map, string_bytes, take, OnErr, OnOk, bytes_eq};
ghost use Rattle.std.specs.List.{list_any};

use crate::text_set::TextSet;
use std::alloc::AllocError;

impl TextSet {
    /// Adds the texts of another set, where they are new. The only error is that memory ran out, and leaves the texts as they
    /// were. It takes the time of adding each of the other texts.
    pub fn add_all(&mut self, others: &TextSet) -> Result<(), AllocError>
        ensures found { OnOk result ((text : List ℕ) → list_any (bytes_eq text) self.new ≡ (list_any (bytes_eq text) self.old || list_any (bytes_eq text) others.now)) }
        ensures err { OnErr result (self.new ≡ self.old) }
    {
        let count = self.count();
        let added = add_each(self, others.as_texts());
        if added.is_err() {
            self.keep(count);
        }
        added
    }

    /// Lets the texts go that another set lacks. The only error is that memory ran out, and leaves the texts as they were. It takes
    /// the time of looking for each of the other texts, and of adding those that stay.
    pub fn keep_all(&mut self, others: &TextSet) -> Result<(), AllocError>
        ensures found { OnOk result ((text : List ℕ) → list_any (bytes_eq text) self.new ≡ (list_any (bytes_eq text) self.old && list_any (bytes_eq text) others.now)) }
        ensures err { OnErr result (self.new ≡ self.old) }
    {
        let mut both = self.none();
        add_held(&mut both, self, others.as_texts())?;
        *self = both;
        Ok(())
    }
}

// Adds some texts, where they are new, behind those that are there.
fn add_each(set: &mut TextSet, texts: &[String]) -> Result<(), AllocError>
    ensures found { OnOk result ((text : List ℕ) → list_any (bytes_eq text) set.new ≡ (list_any (bytes_eq text) set.old || list_any (bytes_eq text) (map string_bytes texts.now))) }
    ensures behind { take (length set.old) set.new ≡ set.old }
{
    for text in texts {
        set.add_str(text.as_str())?;
    }
    Ok(())
}

// Adds those of some texts that a set has.
fn add_held(both: &mut TextSet, held: &TextSet, texts: &[String]) -> Result<(), AllocError>
    ensures { OnOk result ((text : List ℕ) → list_any (bytes_eq text) both.new ≡ (list_any (bytes_eq text) both.old || (list_any (bytes_eq text) held.now && list_any (bytes_eq text) (map string_bytes texts.now)))) }
{
    for text in texts {
        add_if_held(both, held, text.as_str())?;
    }
    Ok(())
}

fn add_if_held(both: &mut TextSet, held: &TextSet, text: &str) -> Result<(), AllocError>
    ensures { OnOk result ((value : List ℕ) → list_any (bytes_eq value) both.new ≡ (list_any (bytes_eq value) both.old || (bytes_eq value text.now && list_any (bytes_eq text.now) held.now))) }
{
    if held.contains(text) {
        both.add_str(text)?;
    }
    Ok(())
}
