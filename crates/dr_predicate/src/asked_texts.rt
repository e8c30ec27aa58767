ghost use Rattle.std.specs.Prelude.{◌≡◌, ◌&&◌, ◌||◌, ℕ, List, OnOk, bytes_eq};
ghost use Rattle.std.specs.List.{list_any};
ghost use Rattle.dr_predicate.specs.Asked.{is_among};
ghost use Rattle.dr_predicate.specs.Match.{passes};

use crate::value_test::ValueTest;
use dr_base::Text;
use dr_dict::TextSet;
use std::alloc::{AllocError, Global};

/// Texts for which tests ask together. One alone is compared, several are found by hashing.
#[derive(Drop)]
pub enum AskedTexts {
    One(Text),
    Several(TextSet),
}

impl AskedTexts {
    // Whether a text is among them.
    pub(crate) fn has(&self, text: &str) -> bool
        ensures { result ≡ is_among self.now text.now }
    {
        match self {
            AskedTexts::One(one) => text == one.as_str(),
            AskedTexts::Several(texts) => texts.contains(text),
        }
    }

    // The test that asks for them.
    pub(crate) fn into_test(self) -> ValueTest
        ensures { (value : List ℕ) → passes result value ≡ is_among self value }
    {
        match self {
            AskedTexts::One(text) => ValueTest::Equals(text),
            AskedTexts::Several(texts) => ValueTest::Among(texts),
        }
    }

    // Adds others.
    pub(crate) fn add(&mut self, alloc: Global, others: &AskedTexts) -> Result<(), AllocError>
        ensures { OnOk result ((value : List ℕ) → is_among self.new value ≡ (is_among self.old value || is_among others.now value)) }
    {
        match self {
            AskedTexts::Several(texts) => add_texts(texts, others)?,
            AskedTexts::One(text) => {
                let mut texts = TextSet::new(alloc);
                texts.add(text)?;
                add_texts(&mut texts, others)?;
                *self = AskedTexts::Several(texts);
            }
        }
        Ok(())
    }

    // Keeps those that others have too.
    pub(crate) fn keep(&mut self, alloc: Global, others: &AskedTexts) -> Result<(), AllocError>
        ensures { OnOk result ((value : List ℕ) → is_among self.new value ≡ (is_among self.old value && is_among others.now value)) }
    {
        match self {
            AskedTexts::Several(texts) => keep_texts(alloc, texts, others)?,
            AskedTexts::One(text) => {
                if !others.has(text.as_str()) {
                    *self = AskedTexts::Several(TextSet::new(alloc));
                }
            }
        }
        Ok(())
    }
}

fn add_texts(texts: &mut TextSet, others: &AskedTexts) -> Result<(), AllocError>
    ensures { OnOk result ((value : List ℕ) → list_any (bytes_eq value) texts.new ≡ (list_any (bytes_eq value) texts.old || is_among others.now value)) }
{
    match others {
        AskedTexts::One(text) => {
            texts.add(text)?;
        }
        AskedTexts::Several(others) => texts.add_all(others)?,
    }
    Ok(())
}

fn keep_texts(alloc: Global, texts: &mut TextSet, others: &AskedTexts) -> Result<(), AllocError>
    ensures { OnOk result ((value : List ℕ) → list_any (bytes_eq value) texts.new ≡ (list_any (bytes_eq value) texts.old && is_among others.now value)) }
{
    match others {
        AskedTexts::One(text) => {
            let mut one = TextSet::new(alloc);
            one.add(text)?;
            texts.keep_all(&one)?;
        }
        AskedTexts::Several(others) => texts.keep_all(others)?,
    }
    Ok(())
}
