ghost use Rattle.std.specs.Prelude.{◌≡◌, ◌&&◌, ◌||◌, not, true, ℕ, ℤ, List, bytes_eq, IfOk, OnOk};
ghost use Rattle.std.specs.List.{list_any};
ghost use Rattle.dr_having.specs.Collected.{is_text, are_texts};
ghost use Rattle.dr_base.specs.Told.{told};
ghost use Rattle.dr_having.specs.OutputMeets.{output_meets};

use crate::asked_output::AskedOutput;
use crate::text_look_up::TextLookUp;
use dr_base::Text;
use dr_dict::TextSet;
use std::alloc::{AllocError, Global};

/// Conditions on the value of one dimension that are all to hold: its place, the texts of which it is one, where some are asked, and
/// the texts of which it is none.
#[derive(Debug, Drop)]
pub struct TextConditions {
    pub place: usize,
    pub among: Option<TextSet>,
    pub denied: TextSet,
}

impl TextConditions {
    // No condition. It takes no memory yet.
    pub(crate) fn new(alloc: Global, place: usize) -> TextConditions
        ensures place { result.place ≡ place }
        ensures every { (text : List ℕ) → is_text result text ≡ true }
    {
        TextConditions {
            place,
            among: None,
            denied: TextSet::new(alloc),
        }
    }

    // Asks that the value is one of some texts too, or that it is none.
    pub(crate) fn add(&mut self, texts: TextSet, holds: bool) -> Result<(), AllocError>
        ensures place { OnOk result (self.new.place ≡ self.old.place) }
        ensures more { OnOk result ((text : List ℕ) → is_text self.new text ≡ (is_text self.old text && told holds (list_any (bytes_eq text) texts))) }
    {
        if holds {
            return self.add_among(texts);
        }
        self.denied.add_all(&texts)
    }

    // Asks that the value is one of some texts too.
    fn add_among(&mut self, texts: TextSet) -> Result<(), AllocError>
        ensures place { OnOk result (self.new.place ≡ self.old.place) }
        ensures more { OnOk result ((text : List ℕ) → is_text self.new text ≡ (is_text self.old text && list_any (bytes_eq text) texts)) }
    {
        match &mut self.among {
            Some(others) => others.keep_all(&texts)?,
            None => self.among = Some(texts),
        }
        Ok(())
    }

    // What is asked of the dimension.
    pub(crate) fn asked(&self, alloc: Global) -> Result<AskedOutput, AllocError>
        ensures { IfOk result (λ o. (dims : List (List ℕ)) (values : List ℤ) → output_meets dims values o ≡ are_texts dims self.now) }
    {
        let place = self.place;
        match &self.among {
            Some(among) => {
                let texts = without(alloc, among, &self.denied)?;
                Ok(AskedOutput::Text(TextLookUp { place, texts }))
            }
            None => {
                let texts = without(alloc, &self.denied, &TextSet::new(alloc))?;
                Ok(AskedOutput::NoText(TextLookUp { place, texts }))
            }
        }
    }
}

// The texts that others lack.
fn without(alloc: Global, texts: &TextSet, others: &TextSet) -> Result<TextSet, AllocError>
    ensures { IfOk result (λ left. (text : List ℕ) → list_any (bytes_eq text) left ≡ (list_any (bytes_eq text) texts.now && not (list_any (bytes_eq text) others.now))) }
{
    let mut left = TextSet::new(alloc);
    for text in texts.as_texts() {
        add_other(alloc, &mut left, others, text.as_str())?;
    }
    Ok(left)
}

// Adds a text, where others lack it.
fn add_other(
    alloc: Global,
    left: &mut TextSet,
    others: &TextSet,
    text: &str,
) -> Result<(), AllocError>
    ensures { OnOk result ((value : List ℕ) → list_any (bytes_eq value) left.new ≡ (list_any (bytes_eq value) left.old || (bytes_eq value text.now && not (list_any (bytes_eq text.now) others.now)))) }
{
    if others.contains(text) {
        return Ok(());
    }
    left.add(&Text::from_str(alloc, text)?)?;
    Ok(())
}
