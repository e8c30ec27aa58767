ghost use Rattle.std.specs.Prelude.{◌≡◌, ◌&&◌, ◌||◌, map, string_bytes, ℕ, List, IfOk, OnOk, bytes_eq};
ghost use Rattle.std.specs.List.{list_any};
ghost use Rattle.dr_predicate.specs.Asked.{is_among, is_denied, lets_through};

use crate::asked_texts::AskedTexts;
use crate::bounds::Bounds;
use crate::ranges::Ranges;
use dr_base::Text;
use dr_dict::TextSet;
use std::alloc::{AllocError, Global};

/// What limits texts: the range in which one is to lie, the texts of which it is to be none, and the ranges in none of which it is to
/// lie.
#[derive(Drop)]
pub struct Limits {
    pub within: Bounds,
    pub no_texts: Option<AskedTexts>,
    pub no_ranges: Ranges,
}

impl Limits {
    // Those of some texts that are let through.
    pub(crate) fn kept(&self, alloc: Global, texts: AskedTexts) -> Result<AskedTexts, AllocError>
        ensures { IfOk result (λ kept. (value : List ℕ) → is_among kept value ≡ (is_among texts value && lets_through self.now value)) }
    {
        match texts {
            AskedTexts::One(text) => {
                if self.let_through(text.as_str()) {
                    Ok(AskedTexts::One(text))
                } else {
                    Ok(AskedTexts::Several(TextSet::new(alloc)))
                }
            }
            AskedTexts::Several(texts) => {
                Ok(AskedTexts::Several(self.kept_texts(alloc, texts.as_texts())?))
            }
        }
    }

    fn kept_texts(&self, alloc: Global, texts: &[String]) -> Result<TextSet, AllocError>
        ensures { IfOk result (λ kept. (value : List ℕ) → list_any (bytes_eq value) kept ≡ (list_any (bytes_eq value) (map string_bytes texts.now) && lets_through self.now value)) }
    {
        let mut kept = TextSet::new(alloc);
        for text in texts {
            self.add_kept(alloc, &mut kept, text.as_str())?;
        }
        Ok(kept)
    }

    // Adds a text, where it is let through.
    fn add_kept(&self, alloc: Global, kept: &mut TextSet, text: &str) -> Result<(), AllocError>
        ensures { OnOk result ((value : List ℕ) → list_any (bytes_eq value) kept.new ≡ (list_any (bytes_eq value) kept.old || (bytes_eq value text.now && lets_through self.now value))) }
    {
        if self.let_through(text) {
            kept.add(&Text::from_str(alloc, text)?)?;
        }
        Ok(())
    }

    // Whether a text is let through.
    fn let_through(&self, text: &str) -> bool
        ensures { result ≡ lets_through self.now text.now }
    {
        self.within.hold(text) && !self.is_denied(text) && !self.no_ranges.hold(text)
    }

    fn is_denied(&self, text: &str) -> bool
        ensures { result ≡ is_denied self.now.no_texts text.now }
    {
        match &self.no_texts {
            Some(texts) => texts.has(text),
            None => false,
        }
    }
}
